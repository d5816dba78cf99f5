// The static library for other languages: the five calls of the crate `exports`, under the names that C links. A crate is a library
// for other crates or a static one for C, so each call is written again here, and states the clauses of the call that it makes.
#![tactic(auto)]

ghost use Rattle.std.specs.Prelude.{◌≡◌};
ghost use Rattle.registers.specs.Registers.{fresh};
ghost use Rattle.numbers.specs.Numbers.{row_of};
ghost use Rattle.exports.specs.Exports.{operation_leaves, operates, run_leaves, runs, listing_leaves, lists, reading_leaves, reads};

// Writes the row of fresh registers.
#[unsafe(no_mangle)]
pub extern "C" fn eveglome_fresh(registers: &mut [u16; numbers::ROW])
    ensures { registers.new ≡ row_of fresh }
{
    exports::eveglome_fresh(registers)
}

// Makes a host operation on the registers. A refused one leaves them as they were.
#[unsafe(no_mangle)]
pub extern "C" fn eveglome_operate(
    registers: &mut [u16; numbers::ROW],
    operation: u32,
    operand: u32,
    answer: &mut [u32; exports::ANSWER],
)
    ensures { operation_leaves registers.new answer.new ≡ operates registers.old operation operand }
{
    exports::eveglome_operate(registers, operation, operand, answer)
}

// Runs the display. A refused run leaves registers, memory and points as they were.
#[unsafe(no_mangle)]
pub extern "C" fn eveglome_run(
    registers: &mut [u16; numbers::ROW],
    loan: &[u16; 4],
    memory: &mut [u16],
    points: &mut [u64],
    budget: u32,
    answer: &mut [u32; exports::ANSWER],
)
    ensures { run_leaves registers.new memory.new points.new answer.new ≡ runs budget loan.now registers.old memory.old points.old }
{
    exports::eveglome_run(registers, loan, memory, points, budget, answer)
}

// Lists the words of a range from a state and a mode on. A refused call leaves the text list as it was.
#[unsafe(no_mangle)]
pub extern "C" fn eveglome_list(
    memory: &[u16],
    low: u32,
    high: u32,
    state: u32,
    mode: u32,
    text: &mut [u8],
    answer: &mut [u32; exports::LISTING_ANSWER],
)
    ensures { listing_leaves text.new answer.new ≡ lists memory.now low high state mode text.old }
{
    exports::eveglome_list(memory, low, high, state, mode, text, answer)
}

// Reads a listing back into the words of a range. A refused call leaves memory as it was.
#[unsafe(no_mangle)]
pub extern "C" fn eveglome_read(
    text: &[u8],
    memory: &mut [u16],
    low: u32,
    high: u32,
    state: u32,
    mode: u32,
    answer: &mut [u32; exports::LISTING_ANSWER],
)
    ensures { reading_leaves memory.new answer.new ≡ reads text.now memory.old low high state mode }
{
    exports::eveglome_read(text, memory, low, high, state, mode, answer)
}
