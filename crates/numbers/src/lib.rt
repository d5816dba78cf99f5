// Registers as a row of numbers, for callers that have no other form: the registers in the order of the replay format, and behind them the numbers of the motion
// (crate `motion_numbers`).
#![tactic(auto)]

ghost use Rattle.std.specs.Prelude.{◌≡◌};
ghost use Rattle.addresses.specs.Addresses.{address, pointer};
ghost use Rattle.registers.specs.With.{with_address, with_pointer, with_held};
ghost use Rattle.motion_numbers.specs.MotionNumbers.{flags_fit};
ghost use Rattle.numbers.specs.Places.{flags};
ghost use Rattle.numbers.specs.Numbers.{narrow_fit, held_fits, fits, held_of, base_of, unfit, registers_of, still_row, row_of, Faithful};

use addresses::{DisplayAddress, PushdownPointer};
use registers::{Base, Motion, Registers};

// How many numbers a row has.
pub const ROW: usize = motion_numbers::ROW;

// The place of each, from 0. First the registers.
pub const ADDRESS: usize = 0;

pub const POINTER: usize = 1;

pub const X: usize = 2;

pub const Y: usize = 3;

pub const STATE: usize = 4;

pub const MODE: usize = 5;

pub const SCALE: usize = 6;

pub const INTENSITY: usize = 7;

pub const PEN_ENABLE: usize = 8;

pub const PEN_HOLD: usize = 9;

pub const PEN_SENSE: usize = 10;

pub const BLINK: usize = 11;

pub const IDLE: usize = 12;

pub const BUTTONS: usize = 13;

pub const HIT_1: usize = 14;

pub const HIT_2: usize = 15;

pub const INTERNAL_STOP_FLAG: usize = 16;

pub const EXTERNAL_STOP_FLAG: usize = 17;

pub const VERTICAL_EDGE_FLAG: usize = 18;

pub const HORIZONTAL_EDGE_FLAG: usize = 19;

pub const PEN_FLAG: usize = 20;

pub const MANUAL_INTERRUPT_FLAG: usize = 21;

pub const CONDITIONS: usize = 22;

pub const RUNNING: usize = 23;

pub const STOP_REQUEST: usize = 24;

// Whether a word is held, and the held word.
pub const HELD: usize = 25;

pub const HELD_WORD: usize = 26;

// The character generator's case, code size and starting address register.
pub const CASE: usize = 27;

pub const CODE_SIZE: usize = 28;

pub const STARTING_ADDRESS: usize = 29;

// The kind of motion, behind which its own numbers stand; and a character's stage, behind which those of the stage stand.
pub const KIND: usize = motion_numbers::KIND;

pub const STAGE: usize = motion_numbers::STAGE;

// Whether each flag of the registers is 0 or 1. A line for each and no list of places: `all` over a list is proved only with a law of lists and their tests.
fn flags_fit(row: [u16; ROW]) -> bool
    ensures { result ≡ flags_fit row flags }
{
    (row[STATE] <= 1)
        & (row[PEN_ENABLE] <= 1)
        & (row[PEN_HOLD] <= 1)
        & (row[PEN_SENSE] <= 1)
        & (row[BLINK] <= 1)
        & (row[IDLE] <= 1)
        & (row[HIT_1] <= 1)
        & (row[HIT_2] <= 1)
        & (row[INTERNAL_STOP_FLAG] <= 1)
        & (row[EXTERNAL_STOP_FLAG] <= 1)
        & (row[VERTICAL_EDGE_FLAG] <= 1)
        & (row[HORIZONTAL_EDGE_FLAG] <= 1)
        & (row[PEN_FLAG] <= 1)
        & (row[MANUAL_INTERRUPT_FLAG] <= 1)
        & (row[RUNNING] <= 1)
        & (row[STOP_REQUEST] <= 1)
        & (row[HELD] <= 1)
        & (row[CASE] <= 1)
        & (row[CODE_SIZE] <= 1)
}

// Whether there is no word where none is held.
fn held_fits(row: [u16; ROW]) -> bool
    ensures { result ≡ held_fits row }
{
    (row[HELD] == 1) | (row[HELD_WORD] == 0)
}

// Whether the registers of 8 bits have no more.
fn narrow_fit(row: [u16; ROW]) -> bool
    ensures { result ≡ narrow_fit row }
{
    (row[MODE] <= 255)
        & (row[SCALE] <= 255)
        & (row[INTENSITY] <= 255)
        & (row[STARTING_ADDRESS] <= 255)
}

// Whether every number of a row is one that its register can hold.
#[tactic(auto, unfolding(crate::specs::Numbers::fits))]
pub fn fits(row: [u16; ROW]) -> bool
    ensures { result ≡ fits row }
{
    flags_fit(row) & narrow_fit(row) & held_fits(row) & motion_numbers::motion_fits(row)
}

// The held word of a row.
#[tactic(auto, unfolding(crate::specs::Numbers::held_of, words::specs::Words::pick))]
fn held_of(row: [u16; ROW]) -> Option<u16>
    ensures { result ≡ held_of row }
{
    if row[HELD] == 1 {
        Some(row[HELD_WORD])
    } else {
        None
    }
}

// The registers other than the motion, with their two addresses and the held word.
fn base_with(
    row: [u16; ROW],
    address: DisplayAddress,
    pointer: PushdownPointer,
    held: Option<u16>,
) -> Base
    ensures { result ≡ with_held (with_pointer (with_address (base_of row) address) pointer) held }
{
    Base {
        address,
        pointer,
        held,
        x: row[X],
        y: row[Y],
        datastate: row[STATE] == 1,
        mode: (row[MODE] % 256) as u8,
        scale: (row[SCALE] % 256) as u8,
        intensity: (row[INTENSITY] % 256) as u8,
        pen: row[PEN_ENABLE] == 1,
        hold: row[PEN_HOLD] == 1,
        sense: row[PEN_SENSE] == 1,
        blink: row[BLINK] == 1,
        idle: row[IDLE] == 1,
        buttons: row[BUTTONS],
        hit1: row[HIT_1] == 1,
        hit2: row[HIT_2] == 1,
        internal: row[INTERNAL_STOP_FLAG] == 1,
        external: row[EXTERNAL_STOP_FLAG] == 1,
        vertical: row[VERTICAL_EDGE_FLAG] == 1,
        horizontal: row[HORIZONTAL_EDGE_FLAG] == 1,
        penflag: row[PEN_FLAG] == 1,
        manual: row[MANUAL_INTERRUPT_FLAG] == 1,
        conditions: row[CONDITIONS],
        running: row[RUNNING] == 1,
        request: row[STOP_REQUEST] == 1,
        upper: row[CASE] == 1,
        seven: row[CODE_SIZE] == 1,
        starting: (row[STARTING_ADDRESS] % 256) as u8,
    }
}

fn base_of(row: [u16; ROW]) -> Base
    ensures { result ≡ base_of row }
{
    base_with(
        row,
        DisplayAddress::given(row[ADDRESS]),
        PushdownPointer::given(row[POINTER]),
        held_of(row),
    )
}

// The fresh registers with a mode out of range.
fn unfit() -> Registers
    ensures { result ≡ unfit }
{
    let fresh = registers::fresh();
    let b = fresh.base;
    Registers {
        base: Base { mode: 8, ..b },
        motion: Motion::Nothing,
    }
}

// The registers of a row. A row that does not fit gives registers out of range, so that every call refuses it as 4, in that refusal's turn.
#[tactic(auto, unfolding(crate::specs::Numbers::registers_of, words::specs::Words::pick))]
pub fn registers_of(row: [u16; ROW]) -> Registers
    ensures { result ≡ registers_of row }
{
    if fits(row) {
        let base = base_of(row);
        let motion = motion_numbers::motion_of(row);
        Registers { base, motion }
    } else {
        unfit()
    }
}

// The row of the registers but for the held word and the motion, and of none of these, with the numbers of the display address and the pushdown pointer. These
// are read before: read here, they made the compiler keep the flags packed through the whole run.
fn base_row(b: Base, display: u16, pushdown: u16) -> [u16; ROW]
    ensures { result ≡ still_row (with_held (with_pointer (with_address b (address display)) (pointer pushdown)) None) }
{
    let mut row = [0u16; ROW];
    row[ADDRESS] = display;
    row[POINTER] = pushdown;
    row[X] = b.x;
    row[Y] = b.y;
    // What has 8 bits before the flags: there the check finds by itself that it fits.
    row[MODE] = b.mode as u16;
    row[SCALE] = b.scale as u16;
    row[INTENSITY] = b.intensity as u16;
    row[STARTING_ADDRESS] = b.starting as u16;
    row[STATE] = b.datastate as u16;
    row[PEN_ENABLE] = b.pen as u16;
    row[PEN_HOLD] = b.hold as u16;
    row[PEN_SENSE] = b.sense as u16;
    row[BLINK] = b.blink as u16;
    row[IDLE] = b.idle as u16;
    row[BUTTONS] = b.buttons;
    row[HIT_1] = b.hit1 as u16;
    row[HIT_2] = b.hit2 as u16;
    row[INTERNAL_STOP_FLAG] = b.internal as u16;
    row[EXTERNAL_STOP_FLAG] = b.external as u16;
    row[VERTICAL_EDGE_FLAG] = b.vertical as u16;
    row[HORIZONTAL_EDGE_FLAG] = b.horizontal as u16;
    row[PEN_FLAG] = b.penflag as u16;
    row[MANUAL_INTERRUPT_FLAG] = b.manual as u16;
    row[CONDITIONS] = b.conditions;
    row[RUNNING] = b.running as u16;
    row[STOP_REQUEST] = b.request as u16;
    row[CASE] = b.upper as u16;
    row[CODE_SIZE] = b.seven as u16;
    row
}

// The row of the registers but for the motion, and of none.
pub fn still_row(b: Base) -> [u16; ROW]
    ensures { result ≡ still_row b }
{
    let held = b.held;
    let mut row = base_row(b, b.address.number(), b.pointer.number());
    row[HELD] = held.is_some() as u16;
    row[HELD_WORD] = held.unwrap_or(0);
    row
}

// The row of registers. Put in line, so that the row of fresh registers is known before the program runs.
#[inline(always)]
pub fn row_of(r: Registers) -> [u16; ROW]
    ensures { result ≡ row_of r }
{
    let b = r.base;
    let motion = r.motion;
    let mut row = still_row(b);
    motion_numbers::lay(motion, &mut row);
    row
}

// Registers in range come back from their row, a row that does not fit is refused, and a row whose registers are in range comes back from them. It does nothing:
// its promise is the theorem, so that a check names it.
pub fn faithful()
    ensures { Faithful }
{}
