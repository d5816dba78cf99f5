// The case `read`: a range of words, a state and a mode, a memory, and the text that is read back into it.
use crate::input::NotACase;
use crate::output::Outlet;
use crate::range::Range;
use crate::tables::Memory;
use crate::{Replay, range};

// Reads the text back, and writes the answer.
fn play(range: Range, text: &[u8], memory: &mut Memory, out: &mut Outlet) {
    let length = memory.length;
    let words = &mut memory.words[..];
    let reading = unlisting::read(
        text,
        &mut words[..length],
        range.low,
        range.high,
        range.state,
        range.mode,
    );
    out.text(b"read");
    range::write(unlisting::numbered(reading), out);
    memory.write_changes(out);
    out.put(b'\n');
}

// Reads the rest of the case, behind its second byte, and answers it.
pub(crate) fn answer(replay: &mut Replay) -> Result<(), NotACase> {
    let Replay { input, tables, out } = replay;
    input.expect(b"ad ")?;
    let range = Range::read(input)?;
    tables.memory.read(input)?;
    let text = input.text(&mut tables.text)?;
    play(range, text, &mut tables.memory, out);
    Ok(())
}
