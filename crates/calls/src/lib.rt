// The whole call of a run: any registers, any lent memory, any loan, any budget and any point list, refused or run.
#![tactic(auto)]

ghost use Rattle.std.specs.Prelude.{◌≡◌, length};
ghost use Rattle.registers.specs.Good.{Good};
ghost use Rattle.runs.specs.Runs.{left, leaves};
ghost use Rattle.calls.specs.Calls.{refused_run, entered, call, numbered, KeepsInRange, AddressInRange, MakesEntries};

use answers::Numbers;
use endings::Ending;
use loan::Loan;
use registers::Registers;
use runs::{Answer, Ran};

// An accepted call: a display that is not running makes no turn.
#[tactic(auto, unfolding(crate::specs::Calls::entered, words::specs::Words::pick))]
fn enter(r: Registers, l: Loan, memory: &mut [u16], points: &mut [u64], budget: u32) -> Ran
    requires { Good r }
    ensures { leaves result memory.new points.new ≡ left (entered budget l (length points.old) r memory.old) points.old }
{
    if r.base.running {
        runs::run(r, l, memory, points, budget)
    } else {
        Ran {
            registers: r,
            answer: Answer::Ended(Ending::NotRunning, 0, 0),
        }
    }
}

// With its number, as 01 has it in the answer.
fn refused(r: Registers, number: u8) -> Ran
    ensures { result ≡ refused_run r number }
{
    Ran {
        registers: r,
        answer: Answer::Refused(number),
    }
}

// A run: refused by the first of 1, 2, 3, 4 that applies, with nothing stored, or run.
#[tactic(auto, unfolding(crate::specs::Calls::call, words::specs::Words::pick))]
pub fn call(r: Registers, l: Loan, memory: &mut [u16], points: &mut [u64], budget: u32) -> Ran
    ensures { leaves result memory.new points.new ≡ call budget l r memory.old points.old }
{
    if memory.len() != 32768 {
        return refused(r, 1);
    }
    if budget > 65535 {
        return refused(r, 2);
    }
    if !loan::fair_loan(l) {
        return refused(r, 3);
    }
    if !registers::in_range(r) {
        return refused(r, 4);
    }
    enter(r, l, memory, points, budget)
}

// The numbers that document 01 gives an answer.
pub fn numbered(answer: Answer) -> Numbers
    ensures { result ≡ numbered answer }
{
    match answer {
        Answer::Refused(number) => answers::refused_numbers(number),
        Answer::Ended(ending, beats, points) => {
            let told = endings::ending_numbers(ending);
            answers::ended_numbers(told.number, beats, points, told.address)
        }
    }
}

// No run leaves registers that refusal 4 refuses. It does nothing: its promise is the theorem, so that a check names it.
pub fn keeps_in_range()
    ensures { KeepsInRange }
{}

// The address that a run answers has 15 bits. It does nothing, like the theorem above.
pub fn address_in_range()
    ensures { AddressInRange }
{}

// Every entry that a run makes is of a point on the screen and tells a 15-bit address. It does nothing, like the theorems above.
pub fn makes_entries()
    ensures { MakesEntries }
{}
