// The stretches of a lesson, lines whose addresses count on by one, each listed by itself.
use crate::Memory;
use crate::asked::Start;
use numerals::Bounds;
use source::Source;
use std::io;
use std::io::Print;

// Writes the listing of a range. Nothing is refused: range, state and mode were tried before, no word of a lesson is above 4,095, and the text has room.
pub(crate) fn write_range(
    out: &impl Print,
    range: Bounds,
    s: Start,
    memory: &Memory,
    text: &mut [u8],
) -> io::Result<()> {
    let Ok(length) = listing::list(memory, range.low, range.high, s.state, s.mode, text) else {
        return Ok(());
    };
    let Some(listing) = text.get(..length) else {
        return Ok(());
    };
    console::write(out, listing)
}

fn write_stretch(
    out: &impl Print,
    stretch: Bounds,
    memory: &Memory,
    text: &mut [u8],
) -> io::Result<()> {
    write_range(out, stretch, Start { state: 0, mode: 0 }, memory, text)
}

// One line more: it goes on with the stretch, or that is written and the line begins another.
fn gone_on(
    out: &impl Print,
    stretch: Option<Bounds>,
    address: u16,
    memory: &Memory,
    text: &mut [u8],
) -> io::Result<Bounds> {
    let high = address % 32768 + 1;
    let mut low = address;
    if let Some(before) = stretch {
        if before.high == address {
            low = before.low;
        } else {
            write_stretch(out, before, memory, text)?;
            console::write(out, b"\n")?;
        }
    }
    Ok(Bounds { low, high })
}

// Writes the listing of each stretch of a lesson, a blank line between two.
pub(crate) fn write(
    out: &impl Print,
    input: &[u8],
    memory: &Memory,
    text: &mut [u8],
) -> io::Result<()> {
    let mut stretch = None;
    let mut s = Source::unread();
    for byte in input {
        let next = s.step(*byte);
        if s.fills(*byte) {
            stretch = Some(gone_on(out, stretch, next.address, memory, text)?);
        }
        s = next;
    }
    match stretch {
        Some(last) => write_stretch(out, last, memory, text),
        None => Ok(()),
    }
}
