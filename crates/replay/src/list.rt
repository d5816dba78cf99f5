// The case `list`: a range of words, a state and a mode, room for the text, and a memory.
use crate::input::NotACase;
use crate::output::Outlet;
use crate::range::Range;
use crate::tables::LONGEST;
use crate::{Replay, range, tables};

// Lists, and writes the answer.
fn play(range: Range, memory: &[u16], text: &mut [u8], out: &mut Outlet) {
    let listed = listing::list(memory, range.low, range.high, range.state, range.mode, text);
    let told = listing::numbered(listed);
    out.text(b"list");
    range::write(told, out);
    let length = told.length.min(text.len());
    tables::write_text(&text[..length], out);
    out.put(b'\n');
}

// Reads the rest of the case, behind its first byte, and answers it.
pub(crate) fn answer(replay: &mut Replay) -> Result<(), NotACase> {
    let Replay { input, tables, out } = replay;
    input.expect(b"ist ")?;
    let range = Range::read(input)?;
    let room = input.length(LONGEST)?;
    tables.memory.read(input)?;
    input.end_of_line()?;
    let memory = &tables.memory;
    let text = &mut tables.text[..];
    play(
        range,
        &memory.words[..memory.length],
        &mut text[..room],
        out,
    );
    Ok(())
}
