// What cannot be taken, told on standard error with what to write instead.
use source::Source;
use std::io;
use std::io::Print;

// How many lines end before the first byte that cannot be taken, or before the lesson does.
fn lines_before(input: &[u8]) -> usize {
    let mut s = Source::unread();
    let mut count = 0;
    for byte in input {
        s = s.step(*byte);
        if s.is_broken() {
            break;
        }
        if *byte == b'\n' {
            count += 1;
        }
    }
    count
}

// A lesson that is none.
pub(crate) fn tell_lesson(err: &impl Print, input: &[u8], s: Source) -> io::Result<()> {
    if s.span.is_some() | s.is_broken() {
        // Never a million lines; the remainder spares every caller to say so.
        let line = lines_before(input) % 1000000 + 1;
        console::write(err, b"line ")?;
        console::write_decimal(err, line as u64)?;
        console::write(
            err,
            b" cannot be read: a line is an address in five octal digits, blanks and a word in four, as 00200 1101; a comment begins with a slash.\n",
        )
    } else {
        console::write(
            err,
            b"there is no word in the lesson: write lines of an address and its word, as 00200 1101.\n",
        )
    }
}

// A listing with a line not in form. The answer stands beside it on standard output, as the practice program's does.
pub(crate) fn tell_listing(out: &impl Print, err: &impl Print, line: u64) -> io::Result<()> {
    console::write(out, b"bad line ")?;
    console::write_decimal(out, line)?;
    console::write(out, b"\n")?;
    console::write(err, b"line ")?;
    console::write_decimal(err, line)?;
    console::write(
        err,
        b" is not in form: a line is an address in five octal digits, one more than the line above, its word in four, and behind a control word its mnemonics and the rest, one space between two, as 00200 1101 POINT EDS; one blank line stands between two stretches. ./eveglome list writes such lines; give unlist the STATE and MODE that list was given.\n",
    )
}
