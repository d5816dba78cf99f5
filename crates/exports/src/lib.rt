// The library for other languages: five calls on numbers and lists of numbers. Registers are a row of numbers (crate `numbers`), an answer five numbers
// (crate `answers`), that of a listing or its reading three (crate `listing`). Whatever arrives is refused or done: no caller has to check first. The crate
// `exports_c` hands the calls to C.
#![tactic(auto)]

ghost use Rattle.std.specs.Prelude.{◌≡◌, ◌<◌};
ghost use Rattle.registers.specs.Registers.{fresh};
ghost use Rattle.numbers.specs.Numbers.{row_of};
ghost use Rattle.exports.specs.Exports.{loan_of, told, operation_leaves, operates, run_leaves, runs};
ghost use Rattle.exports.specs.Exports.{narrowed, told_listing, listing_leaves, lists, reading_leaves, reads};

use answers::Numbers;
use listing::ListingNumbers;
use loan::Loan;
use registers::Registers;
use runs::Answer;

// How many numbers an answer has.
pub const ANSWER: usize = 5;

// How many numbers the answer of a listing or its reading has.
pub const LISTING_ANSWER: usize = 3;

// The loan of its four numbers: file low, file high, list low, list high.
fn loan_of(loan: [u16; 4]) -> Loan
    ensures { result ≡ loan_of loan }
{
    Loan {
        filelow: loan[0],
        filehigh: loan[1],
        listlow: loan[2],
        listhigh: loan[3],
    }
}

// An answer's five numbers: ending or refusal, word, beats, points, address.
fn told(n: Numbers) -> [u32; ANSWER]
    requires { n.points < 4294967296 }
    ensures { result ≡ told n }
{
    [
        n.ending as u32,
        n.word as u32,
        n.beats,
        n.points as u32,
        n.address as u32,
    ]
}

// The three numbers of a listing's or a reading's answer: refusal, line, length.
fn told_listing(n: ListingNumbers) -> [u32; LISTING_ANSWER]
    requires { n.length < 4294967296 }
    ensures { result ≡ told_listing n }
{
    [n.refusal as u32, n.line, n.length as u32]
}

// A number in 16 bits. What does not fit becomes their largest, which is no end of a range either, and is refused like it.
#[tactic(auto, using(crate::proofs::Narrow::narrowed_or))]
fn narrow_end(number: u32) -> u16
    ensures { result ≡ narrowed 65535 number }
{
    u16::try_from(number).unwrap_or(u16::MAX)
}

// The same in 8 bits, of a state or a mode. One function of both widths would be no plainer: it would have to be told which number is a width's last.
#[tactic(auto, using(crate::proofs::Narrow::narrowed_or))]
fn narrow_start(number: u32) -> u8
    ensures { result ≡ narrowed 255 number }
{
    u8::try_from(number).unwrap_or(u8::MAX)
}

// Writes the row of a run's registers, as `numbers::row_of` would make it. Not by that one, nor for other callers: one that several functions call is not
// put in line, the registers then lie in memory through the whole run, and control words cost half as much again.
#[tactic(auto, using(numbers::proofs::Laid::row_laid))]
fn leave(r: Registers, row: &mut [u16; numbers::ROW])
    ensures { row.new ≡ row_of r }
{
    *row = numbers::still_row(r.base);
    motion_numbers::lay(r.motion, row);
}

// Writes the row of fresh registers.
pub fn eveglome_fresh(registers: &mut [u16; numbers::ROW])
    ensures { registers.new ≡ row_of fresh }
{
    *registers = numbers::row_of(registers::fresh());
}

// Makes a host operation on the registers. A refused one leaves them as they were.
#[tactic(auto, unfolding(crate::specs::Exports::operates))]
pub fn eveglome_operate(
    registers: &mut [u16; numbers::ROW],
    operation: u32,
    operand: u32,
    answer: &mut [u32; ANSWER],
)
    ensures { operation_leaves registers.new answer.new ≡ operates registers.old operation operand }
{
    let operated = host::operate(numbers::registers_of(*registers), operation, operand);
    *answer = told(host::numbered(operated.reply));
    if operated.reply.is_ok() {
        *registers = numbers::row_of(operated.registers);
    }
}

// Runs the display. A refused run leaves registers, memory and points as they were.
#[tactic(auto, unfolding(crate::specs::Exports::runs))]
pub fn eveglome_run(
    registers: &mut [u16; numbers::ROW],
    loan: &[u16; 4],
    memory: &mut [u16],
    points: &mut [u64],
    budget: u32,
    answer: &mut [u32; ANSWER],
)
    ensures { run_leaves registers.new memory.new points.new answer.new ≡ runs budget loan.now registers.old memory.old points.old }
{
    let ran = calls::call(
        numbers::registers_of(*registers),
        loan_of(*loan),
        memory,
        points,
        budget,
    );
    // Before the row: behind it, the address would be carried through the whole run.
    *answer = told(calls::numbered(ran.answer));
    // The answer's case alone decides: a test of its number would slow the whole run down, because the compiler carries it into the loop.
    if let Answer::Ended(_, _, _) = ran.answer {
        leave(ran.registers, registers);
    }
}

// Lists the words of a range from a state and a mode on. A refused call leaves the text list as it was.
#[tactic(auto, unfolding(crate::specs::Exports::lists))]
pub fn eveglome_list(
    memory: &[u16],
    low: u32,
    high: u32,
    state: u32,
    mode: u32,
    text: &mut [u8],
    answer: &mut [u32; LISTING_ANSWER],
)
    ensures { listing_leaves text.new answer.new ≡ lists memory.now low high state mode text.old }
{
    let listed = listing::list(
        memory,
        narrow_end(low),
        narrow_end(high),
        narrow_start(state),
        narrow_start(mode),
        text,
    );
    *answer = told_listing(listing::numbered(listed));
}

// Reads a listing back into the words of a range. A refused call leaves memory as it was.
#[tactic(auto, unfolding(crate::specs::Exports::reads))]
pub fn eveglome_read(
    text: &[u8],
    memory: &mut [u16],
    low: u32,
    high: u32,
    state: u32,
    mode: u32,
    answer: &mut [u32; LISTING_ANSWER],
)
    ensures { reading_leaves memory.new answer.new ≡ reads text.now memory.old low high state mode }
{
    let reading = unlisting::read(
        text,
        memory,
        narrow_end(low),
        narrow_end(high),
        narrow_start(state),
        narrow_start(mode),
    );
    *answer = told_listing(unlisting::numbered(reading));
}
