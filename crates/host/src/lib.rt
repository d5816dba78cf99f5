// Host operations: any registers, any operation number and any operand, refused or done. Memory and points are not among the parameters.
#![tactic(auto)]

ghost use Rattle.std.specs.Prelude.{◌≡◌};
ghost use Rattle.host.specs.HostOperations.{operation_number, with_motion, registers_after, reading, done, operate, numbered, KeepsInRange};
ghost use Rattle.host.specs.Accepts.{Accepts};

mod operation;
mod refusal;

use addresses::{DisplayAddress, PushdownPointer};
use answers::Numbers;
pub use operation::Operation;
pub use refusal::Refusal;
use registers::{Base, Motion, Registers};

// The registers after an operation, and the word that it answers.
#[derive(Clone, Copy)]
pub struct Operated {
    pub registers: Registers,
    pub reply: Result<u16, Refusal>,
}

// The registers of a base and a motion.
fn with_motion(base: Base, motion: Motion) -> Registers
    ensures { result ≡ with_motion base motion }
{
    Registers { base, motion }
}

// The registers after an operation. Start and clear end the motion.
#[tactic(auto, unfolding(crate::specs::HostOperations::registers_after, words::specs::Words::pick))]
fn registers_after(r: Registers, operation: Operation, operand: u16) -> Registers
    ensures { result ≡ registers_after r (operation_number operation) operand }
{
    let b = r.base;
    let m = r.motion;
    match operation {
        Operation::Start => with_motion(
            operations::started(b, DisplayAddress::at(operand)),
            Motion::Nothing,
        ),
        Operation::Pointer => with_motion(operations::pointed(b, PushdownPointer::at(operand)), m),
        Operation::Conditions => with_motion(operations::conditioned(b, operand), m),
        Operation::Resume => with_motion(operations::resume(b), m),
        Operation::Clear => with_motion(operations::cleared(b), Motion::Nothing),
        Operation::StopRequest => with_motion(operations::requested(b), m),
        Operation::PenLight => with_motion(inputs::pen_lit(b), m),
        Operation::Press => with_motion(inputs::pressed(b, operand), m),
        Operation::ClearGroup => with_motion(inputs::group_cleared(b, operand), m),
        Operation::ManualInterrupt => with_motion(inputs::interrupted(b, true), m),
        Operation::ManualInterruptOff => with_motion(inputs::interrupted(b, false), m),
        Operation::Idle => with_motion(inputs::idled(b), m),
        Operation::ReadStatusOne => with_motion(inputs::hits_read(b), m),
        Operation::SetGenerator => with_motion(operations::generated(b, operand), m),
        _ => r,
    }
}

// The word that an operation answers.
#[tactic(auto, unfolding(crate::specs::HostOperations::reading, words::specs::Words::pick))]
fn reading(r: Registers, operation: Operation) -> u16
    ensures { result ≡ reading r (operation_number operation) }
{
    let b = r.base;
    let m = r.motion;
    match operation {
        Operation::ReadPointer => b.pointer.number(),
        Operation::ReadX => b.x % 4096,
        Operation::ReadY => b.y % 4096,
        Operation::ReadAddress => b.address.low_bits(),
        Operation::ReadStatusOne => status::status_one(b),
        Operation::ReadStatusTwo => status::status_two(b, m),
        Operation::ReadButtons => b.buttons,
        Operation::ReadGenerator => status::generator_word(b, m),
        _ => 0,
    }
}

#[tactic(auto, unfolding(crate::specs::HostOperations::done))]
fn done(r: Registers, operation: Operation, operand: u16) -> Operated
    ensures { result ≡ done r (operation_number operation) operand }
{
    let word = reading(r, operation);
    let registers = registers_after(r, operation, operand);
    Operated {
        registers,
        reply: Ok(word),
    }
}

// The operation that is accepted, or the first refusal that applies.
#[tactic(auto, unfolding(crate::specs::HostOperations::operate, words::specs::Words::pick))]
fn accepted(r: Registers, number: u32, operand: u32) -> Result<Operation, Refusal>
    ensures { Accepts r number operand result }
{
    if !registers::in_range(r) {
        return Err(Refusal::RegistersOutOfRange);
    }
    let operation = Operation::try_from(number)?;
    if !operation.takes(operand) {
        return Err(Refusal::OperandOutOfRange);
    }
    Ok(operation)
}

// An operation on the registers: refused by the first of 4, 5, 6 that applies, or done.
pub fn operate(r: Registers, operation: u32, operand: u32) -> Operated
    ensures { result ≡ operate r operation operand }
{
    match accepted(r, operation, operand) {
        Ok(accepted) => done(r, accepted, operand as u16),
        Err(refusal) => Operated {
            registers: r,
            reply: Err(refusal),
        },
    }
}

// The numbers that document 01 gives a reply.
pub fn numbered(reply: Result<u16, Refusal>) -> Numbers
    ensures { result ≡ numbered reply }
{
    match reply {
        Ok(word) => answers::done_numbers(word),
        Err(refusal) => answers::refused_numbers(u8::from(refusal)),
    }
}

// No operation leaves registers that refusal 4 refuses. It does nothing: its promise is the theorem, so that a check names it.
pub fn keeps_in_range()
    ensures { KeepsInRange }
{}
