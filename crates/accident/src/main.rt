// The accident of May: an exercise that forgets its stop runs off its end into old words that look like push jumps. Run with the class's loan, with
// the old words lent too, and with all of memory lent, it shows what the fence keeps.
#![tactic(auto)]

use host::Operation;
use loan::Loan;
use runs::Ran;
use std::io;
use std::io::Print;
use text::Text;

// The exercise lies at 1000o, the class's pushdown list at 7000o, and the recovered character table, 64 words of it, behind the list at 7100o.
const EXERCISE: usize = 512;

const OLD_WORDS: usize = 517;

const LIST: u16 = 3584;

const TABLE: usize = 3648;

const TABLE_END: usize = 3712;

// A memory with the exercise, the old words and the table.
fn laid_out() -> [u16; 32768] {
    let mut memory = console::all(0);
    // Point mode, a lit point at (512, 512), escape; then the clearing of the hit flags, and no stop.
    memory[EXERCISE] = 0o1107;
    memory[EXERCISE + 1] = 0o5000;
    memory[EXERCISE + 2] = 0o5000;
    memory[EXERCISE + 3] = 0o1200;
    memory[EXERCISE + 4] = 0o0000;
    // What an older file left there: a push jump to itself.
    memory[OLD_WORDS] = 0o2010;
    memory[OLD_WORDS + 1] = 0o1005;
    memory[TABLE..TABLE_END].fill(0o7070);
    memory
}

// How many words of the character table are no longer what was recovered.
fn damaged(memory: &[u16; 32768]) -> usize {
    memory[TABLE..TABLE_END]
        .iter()
        .filter(|word| **word != 0o7070)
        .count()
}

// Says how the run ended, in words, and what it did to the character table.
fn tell(out: &impl Print, ran: Ran, changed: usize) -> io::Result<()> {
    let mut line = [0u8; 128];
    let mut text = Text::new(&mut line);
    meanings::put_sentence(ran.answer, ran.registers, &mut text);
    console::write(out, text.as_bytes())?;
    console::write(out, b"  ")?;
    console::write_decimal(out, calls::numbered(ran.answer).points as u64)?;
    console::write(out, b" point lit, ")?;
    console::write_decimal(out, changed as u64)?;
    console::write(out, b" words of the character table overwritten\n")
}

// Starts a fresh display at the exercise, with the pushdown list where the class's begins, and runs it with a loan.
fn tried(out: &impl Print, lent: Loan) -> io::Result<()> {
    let mut memory = laid_out();
    let mut points = [0u64; 16];
    let started = host::operate(registers::fresh(), Operation::Start.into(), 512).registers;
    let ready = host::operate(started, Operation::Pointer.into(), LIST as u32).registers;
    let ran = calls::call(ready, lent, &mut memory, &mut points, 70);
    tell(out, ran, damaged(&memory))
}

// Tells of the exercise under three loans.
fn show(out: &impl Print) -> io::Result<()> {
    console::write(
        out,
        b"With the class's loan (file 1000o to 1005o, list 7000o to 7100o):\n  ",
    )?;
    tried(
        out,
        Loan {
            filelow: 512,
            filehigh: 517,
            listlow: 3584,
            listhigh: 3648,
        },
    )?;
    console::write(
        out,
        b"With the old words lent too (file 1000o to 1007o, the same list):\n  ",
    )?;
    tried(
        out,
        Loan {
            filelow: 512,
            filehigh: 519,
            listlow: 3584,
            listhigh: 3648,
        },
    )?;
    console::write(out, b"With all of memory lent:\n  ")?;
    tried(
        out,
        Loan {
            filelow: 0,
            filehigh: 32768,
            listlow: 0,
            listhigh: 32768,
        },
    )
}

fn main(rt: HostRuntime) -> io::Result<()> {
    console::ended(show(&rt))
}
