// What the command line asks for: FROM TO STATE MODE of a listing, --back STATE MODE of its reading. A number that is left out is 0.
use numerals::Bounds;
use std::env::Env;
use std::io;
use std::io::Print;

// The state and the mode that a listing begins in.
#[derive(Clone, Copy)]
pub(crate) struct Start {
    pub state: u8,
    pub mode: u8,
}

// Whether a listing is to be read back: of what the front door lets through, only --back begins so.
pub(crate) fn is_back(start: &impl Env) -> bool {
    let mut argument = [0u8; 8];
    console::argument(start, 1, &mut argument);
    argument.starts_with(b"--")
}

// The octal number that an argument is. One that cannot be taken is told.
fn number(
    start: &impl Env,
    err: &impl Print,
    i: usize,
    most: u32,
    wanted: &[u8],
) -> io::Result<Option<u32>> {
    if console::argument_count(start) <= i {
        return Ok(Some(0));
    }
    let mut argument = [0u8; 256];
    console::value_of(
        start,
        err,
        i,
        &mut argument,
        |s| numerals::octal(most, s),
        wanted,
    )
}

// The range.
pub(crate) fn range(start: &impl Env, err: &impl Print) -> io::Result<Option<Bounds>> {
    let wanted = b"FROM wants an address in octal, 0 to 100000, as 00200";
    let Some(low) = number(start, err, 1, 32768, wanted)? else {
        return Ok(None);
    };
    let wanted = b"TO wants the address behind the last in octal, 0 to 100000, as 00204";
    let Some(high) = number(start, err, 2, 32768, wanted)? else {
        return Ok(None);
    };
    if high < low {
        console::write(
            err,
            b"FROM is above TO: give the lower address first, as 00200 00204, which lists 00200 to 00203.\n",
        )?;
        return Ok(None);
    }
    Ok(Some(Bounds {
        low: (low % 65536) as u16,
        high: (high % 65536) as u16,
    }))
}

// The state and the mode, at two places of the command line.
pub(crate) fn starting(
    start: &impl Env,
    err: &impl Print,
    first: usize,
    second: usize,
) -> io::Result<Option<Start>> {
    let wanted = b"STATE wants 0 for control state or 1 for data state";
    let Some(state) = number(start, err, first, 1, wanted)? else {
        return Ok(None);
    };
    let wanted = b"MODE wants a mode, 0 to 7, as 4 for short vectors";
    let Some(mode) = number(start, err, second, 7, wanted)? else {
        return Ok(None);
    };
    Ok(Some(Start {
        state: (state % 256) as u8,
        mode: (mode % 256) as u8,
    }))
}
