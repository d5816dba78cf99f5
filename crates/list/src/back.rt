// A listing read back: its stretches, a blank line between two, and the lesson's lines of their words.
ghost use Rattle.std.specs.Prelude.{◌≤◌, length};

use crate::asked::Start;
use crate::{Memory, faults};
use listing::Refusal;
use numerals::Bounds;
use std::io;
use std::io::Print;
use text::Text;

// A stretch: how many bytes it has, and how many lines behind its first.
#[derive(Clone, Copy)]
struct Stretch {
    length: usize,
    further: usize,
}

// The stretch that a text begins with. A blank line ends it if something comes behind. In one pass by places: two chains, for the end and for the lines, read a
// listing that is not in form twice.
fn first_stretch(text: &[u8]) -> Stretch
    ensures { result.length ≤ length text.now }
{
    let mut before = 0;
    let mut further = 0;
    for at in 0..text.len() {
        if before == b'\n' {
            if (text[at] == b'\n') & (at + 1 < text.len()) {
                return Stretch {
                    length: at,
                    further,
                };
            }
            further += 1;
        }
        before = text[at];
    }
    Stretch {
        length: text.len(),
        further,
    }
}

// How many lines end in a text.
fn ended(text: &[u8]) -> usize {
    text.iter().filter(|byte| **byte == b'\n').count()
}

// Where the words of a stretch stand: no line is beyond 77777.
fn range(text: &[u8], further: usize) -> Bounds {
    let low = lines::start(text) % 32768;
    let high = low + further.min((32767 - low) as usize) as u16 + 1;
    Bounds { low, high }
}

// Writes a line of a lesson.
fn write_line(out: &impl Print, address: u16, word: u16) -> io::Result<()> {
    let mut line = [0u8; 11];
    let mut text = Text::new(&mut line);
    text.put_address(address);
    text.put(b' ');
    text.put_word(word);
    text.put(b'\n');
    console::write(out, text.as_bytes())
}

// Writes the lines of a range of words.
fn write_lines(out: &impl Print, memory: &Memory, range: Bounds) -> io::Result<()> {
    for address in range.low..range.high.min(32768) {
        write_line(out, address, memory[address as usize])?;
    }
    Ok(())
}

// The first line of a stretch that is not in form, if there is one.
fn read_stretch(s: Start, text: &[u8], memory: &mut Memory, range: Bounds) -> Option<u32> {
    match unlisting::read(text, memory, range.low, range.high, s.state, s.mode) {
        Err(Refusal::Line(line)) => Some(line),
        _ => None,
    }
}

// Reads all stretches, does what is to be done with the words of each, and answers the first line not in form, if there is one.
fn read<F: FnMut(&Memory, Bounds) -> io::Result<()>>(
    s: Start,
    input: &[u8],
    memory: &mut Memory,
    mut each: F,
) -> io::Result<Option<usize>>
    requires { F.IsAlwaysCallable each }
{
    let mut at = 0;
    // Each turn goes on by a stretch, whose length is found in the turn, so that no range fits.
    while at < input.len() {
        let stretch = first_stretch(&input[at..]);
        let text = &input[at..at + stretch.length];
        let range = range(text, stretch.further);
        if let Some(line) = read_stretch(s, text, memory, range) {
            // Never so many; the remainders spare every caller to say so.
            return Ok(Some(ended(&input[..at]) % 2000000 + (line % 2000000) as usize));
        }
        each(memory, range)?;
        at += stretch.length + 1;
    }
    Ok(None)
}

// Writes the lesson that a listing makes, or its first line not in form: of an empty listing that is line 1.
pub(crate) fn write(
    out: &impl Print,
    err: &impl Print,
    s: Start,
    input: &[u8],
    memory: &mut Memory,
) -> io::Result<()> {
    if input.is_empty() {
        return faults::tell_listing(out, err, 1);
    }
    match read(s, input, memory, |_, _| Ok(()))? {
        Some(line) => faults::tell_listing(out, err, line as u64),
        None => {
            read(s, input, memory, |memory, range| {
                write_lines(out, memory, range)
            })?;
            Ok(())
        }
    }
}
