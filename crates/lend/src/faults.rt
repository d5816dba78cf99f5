// What cannot be taken, told on standard error with what to write instead.
use arguments::Awaited;
use std::io;
use std::io::Print;

// The value that an option wants.
fn tell_wanted(err: &impl Print, awaited: Awaited) -> io::Result<()> {
    match awaited {
        Awaited::FileRange => console::write(
            err,
            b"--file wants a range LOW-HIGH in octal, as --file 01000-01005, which lends 01000 to 01004; HIGH is at most 100000 and not below LOW",
        ),
        Awaited::ListRange => console::write(
            err,
            b"--list wants a range LOW-HIGH in octal, as --list 07000-07100, which lends 07000 to 07077; HIGH is at most 100000 and not below LOW",
        ),
        Awaited::Start => console::write(
            err,
            b"--start wants an address in octal, 0 to 77777, as --start 00200",
        ),
        Awaited::Pointer => console::write(
            err,
            b"--pointer wants an address in octal, 0 to 7777, as --pointer 7000",
        ),
        Awaited::Budget => console::write(
            err,
            b"--budget wants a number of beats, 0 to 65535, as --budget 100",
        ),
        Awaited::Room => console::write(
            err,
            b"--room wants a number of points, 0 to 65536, as --room 1024",
        ),
    }
}

// An argument that cannot be taken where this was waited for, or nothing.
pub(crate) fn tell(err: &impl Print, awaited: Option<Awaited>, argument: &[u8]) -> io::Result<()> {
    match awaited {
        Some(awaited) => tell_wanted(err, awaited)?,
        None => console::write(err, b"there is no such option")?,
    }
    console::write(err, b": '")?;
    console::write(err, argument)?;
    console::write(
        err,
        b"' cannot be taken. ./eveglome run --help says which options there are.\n",
    )
}

// An option whose value does not come.
pub(crate) fn tell_missing(err: &impl Print, awaited: Awaited) -> io::Result<()> {
    tell_wanted(err, awaited)?;
    console::write(err, b": nothing comes behind it.\n")
}

// A lesson that is too long.
pub(crate) fn tell_long(err: &impl Print) -> io::Result<()> {
    console::write(
        err,
        b"the lesson is longer than 262144 bytes: take comments out of it.\n",
    )
}
