// Where a lesson goes wrong, told with its line, what is wrong with it, and the form.
ghost use Rattle.std.specs.Prelude.{◌≤◌, length};

use source::Source;
use std::io;
use std::io::Print;

// The first byte that cannot be taken, and how far its line is read there, in the places of the crate `source`.
#[derive(Clone, Copy)]
struct Spot {
    at: usize,
    place: u8,
}

// The byte that makes a line none, or the end of the lesson.
fn first_spot(input: &[u8]) -> Spot
    ensures { result.at ≤ length input.now }
{
    let mut s = Source::unread();
    for (at, byte) in input.iter().enumerate() {
        let next = s.step(*byte);
        if next.is_broken() {
            return Spot { at, place: s.place };
        }
        s = next;
    }
    Spot {
        at: input.len(),
        place: s.place,
    }
}

// Whether a byte stands right in the form that the practice program reads.
fn fits(place: usize, byte: u8) -> bool {
    if place == 5 {
        byte == b' '
    } else if place == 10 {
        byte == b'\n'
    } else {
        lines::is_octal(byte)
    }
}

// How much of a line stands right in that form.
fn fitting(line: &[u8]) -> usize
    ensures { (result ≤ 11) × (result ≤ length line.now) }
{
    let end = line.len().min(lines::LINE);
    for i in 0..end {
        if !fits(i, line[i]) {
            return i;
        }
    }
    end
}

// Where the line begins that goes on behind a text.
fn beginning(before: &[u8]) -> usize
    ensures { result ≤ length before.now }
{
    match before.iter().rposition(|byte| *byte == b'\n') {
        Some(at) => at + 1,
        None => 0,
    }
}

// The number of that line, counted up to a million.
fn number(before: &[u8]) -> u64 {
    let ended = before.iter().filter(|byte| **byte == b'\n').count();
    ended.min(999999) as u64 + 1
}

// A byte that a terminal can show.
fn plain(byte: u8) -> u8 {
    if (b' ' <= byte) & (byte <= b'~') {
        byte
    } else {
        b'?'
    }
}

// Writes a line, its first 60 bytes at most.
fn write_line(out: &impl Print, line: &[u8]) -> io::Result<()> {
    for byte in line.iter().take(60) {
        if *byte == b'\n' {
            break;
        }
        console::write(out, &[plain(*byte)])?;
    }
    Ok(())
}

// What is wrong with a byte at a place of its line.
fn tell_byte(out: &impl Print, place: u8, byte: u8) -> io::Result<()> {
    match (byte, place) {
        (b'\n', _) => console::write(out, b"it is too short"),
        (b'\t', _) => console::write(out, b"there is a tab in it"),
        (b'\r', _) => console::write(out, b"there is a carriage return in it"),
        (_, 10) => console::write(out, b"it is too long"),
        (_, 5) => console::write(out, b"behind its first five digits there is no space"),
        (b'8' | b'9', _) => console::write(out, b"8 and 9 are no octal digits"),
        (b' ', _) => console::write(out, b"it has too few digits, or a space too many"),
        _ => console::write(out, b"it has a character that is no octal digit"),
    }
}

// What is wrong where the lesson ends.
fn tell_end(out: &impl Print, place: u8) -> io::Result<()> {
    if place == 10 {
        console::write(out, b"its newline is missing")
    } else {
        console::write(out, b"the lesson ends before it is whole")
    }
}

// Tells the line of a place and what is wrong with it there.
fn tell(out: &impl Print, input: &[u8], at: usize, place: u8) -> io::Result<()>
    requires { at ≤ length input.now }
{
    let before = &input[..at];
    console::write(out, b"line ")?;
    console::write_decimal(out, number(before))?;
    console::write(out, b" is '")?;
    write_line(out, &input[beginning(before)..])?;
    console::write(out, b"': ")?;
    if at < input.len() {
        tell_byte(out, place, input[at])
    } else {
        tell_end(out, place)
    }
}

// A lesson as people write it that is none.
pub(crate) fn tell_source(err: &impl Print, input: &[u8], any: bool) -> io::Result<()> {
    let s = first_spot(input);
    if (s.at < input.len()) | any {
        tell(err, input, s.at, s.place)?;
        console::write(
            err,
            b". A line is an address in five octal digits, blanks and a word in four, as 00200 1101; a comment begins with a slash.\n",
        )
    } else {
        console::write(
            err,
            b"there is no word in the lesson: write lines of an address and its word, as 00200 1101.\n",
        )
    }
}

// Whether the practice program takes what begins with so many good lines.
pub(crate) fn good(input: &[u8], count: usize) -> bool {
    (0 < count) & (count <= 4096) & (lines::LINE * (count % 4097) == input.len())
}

// A lesson that the practice program does not take.
pub(crate) fn tell_lines(out: &impl Print, input: &[u8], count: usize) -> io::Result<()> {
    console::write(out, b"hint: ")?;
    if count < 4096 {
        let begin = lines::LINE * count;
        if begin <= input.len() {
            let place = fitting(&input[begin..]);
            tell(out, input, begin + place, place as u8)?;
        }
        console::write(
            out,
            b". A line is an address in five octal digits, one space, a word in four and a newline, as 00200 1101. ./eveglome run also takes comments, blank lines, tabs and carriage returns.\n",
        )
    } else {
        console::write(
            out,
            b"line 4097 is one too many: a lesson has at most 4096 lines.\n",
        )
    }
}
