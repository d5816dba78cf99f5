// The case `op`: registers, an operation's number and its operand.
use crate::Replay;
use crate::input::NotACase;
use crate::row::Row;

// Reads the rest of the case, behind its first byte, and answers it.
pub(crate) fn answer(replay: &mut Replay) -> Result<(), NotACase> {
    let Replay { input, out, .. } = replay;
    input.expect(b"p ")?;
    let given = Row::read(input)?;
    let operation = input.number()?;
    let operand = input.number()?;
    input.end_of_line()?;
    let operated = host::operate(given.into(), operation, operand);
    let told = host::numbered(operated.reply);
    let left = if operated.reply.is_ok() {
        operated.registers.into()
    } else {
        given
    };
    out.text(b"op");
    out.number(told.ending);
    out.number(told.word);
    left.write(out);
    out.put(b'\n');
    Ok(())
}
