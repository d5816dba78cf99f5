// The display's registers, the fresh ones, and the test that refusal 4 is.
#![tactic(auto)]

ghost use Rattle.std.specs.Prelude.{◌≡◌};
ghost use Rattle.registers.specs.Registers.{larger, byte_at, moves_asked, escapes, held_in_range, numbers_in_range, line_in_range, counts_in_range, bytes_in_range, stage_in_range, character_in_range, motion_in_range, in_range, fresh};

use addresses::{DisplayAddress, PushdownPointer};

// A line under way: `done` of its `moves`. A minus sign is kept on a magnitude of 0 too.
#[derive(Clone, Copy)]
pub struct LineMotion {
    pub magx: u16,
    pub magy: u16,
    pub minusx: bool,
    pub minusy: bool,
    pub moves: u16,
    pub done: u16,
    pub lit: bool,
    pub escape: bool,
}

// Increment bytes under way: the moves left of the left byte or of the right one. Its fields lie over those of LineMotion, width over width,
// which keeps a motion in machine registers.
#[derive(Clone, Copy)]
pub struct ByteMotion {
    pub word: u16,
    pub moves: u16,
    pub right: bool,
}

// What an unfinished character waits for: its table word; the next word of its routine, of short vectors or of increments, at an address; or the moves that are
// left of a routine word, whose address stands before them.
#[derive(Clone, Copy)]
pub enum Stage {
    Table,
    Routine(bool, DisplayAddress),
    Increments(DisplayAddress, ByteMotion),
    Short(DisplayAddress, LineMotion),
}

// An unfinished character: its word, read as one code of seven bits or as two of six, and of these the left one or the right one.
#[derive(Clone, Copy)]
pub struct CharacterMotion {
    pub word: u16,
    pub seven: bool,
    pub right: bool,
    pub stage: Stage,
}

// What is under way, with the address of its command's last word, which its points tell. The address stands beside the struct: in a struct of bytes it would
// make eight bytes, which the compiler moves as one number and takes apart again in each move.
#[derive(Clone, Copy)]
pub enum Motion {
    Nothing,
    Line(DisplayAddress, LineMotion),
    Bytes(DisplayAddress, ByteMotion),
    Character(CharacterMotion),
}

// Every register but the motion. The wide fields first: a struct is laid out in this order, which was counted (docs/PERFORMANCE.md).
#[derive(Clone, Copy)]
pub struct Base {
    pub x: u16,
    pub y: u16,
    // The 12 initial-condition bits.
    pub conditions: u16,
    pub address: DisplayAddress,
    pub pointer: PushdownPointer,
    // Button 0 is bit 0, the leftmost.
    pub buttons: u16,
    pub scale: u8,
    pub intensity: u8,
    pub mode: u8,
    // The character generator's starting address register (SAR).
    pub starting: u8,
    // The state: data, or control where it is off.
    pub datastate: bool,
    // Pen enable.
    pub pen: bool,
    pub running: bool,
    // The flags of the two edges: horizontal is x's.
    pub horizontal: bool,
    pub vertical: bool,
    pub idle: bool,
    pub blink: bool,
    // Pen hold.
    pub hold: bool,
    // A stop request that waits.
    pub request: bool,
    // The light pen sense indicator (LPSI).
    pub sense: bool,
    // The hit flags of bank 1, buttons 0 to 5, and bank 2, buttons 6 to 11.
    pub hit1: bool,
    pub hit2: bool,
    // The flags of internal stop, external stop, pen and manual interrupt.
    pub internal: bool,
    pub external: bool,
    pub penflag: bool,
    pub manual: bool,
    // The character generator's case, and its code size: seven bits, or six where it is off.
    pub upper: bool,
    pub seven: bool,
    // The word that an external stop holds for the next command beat.
    pub held: Option<u16>,
}

#[derive(Clone, Copy)]
pub struct Registers {
    pub base: Base,
    pub motion: Motion,
}

// The larger of two magnitudes: a line's number of moves.
#[tactic(auto, using(crate::proofs::Magnitudes::greatest))]
pub fn larger(one: u16, other: u16) -> u16
    ensures { result ≡ larger one other }
{
    one.max(other)
}

// The left or the right byte of an increment word.
#[tactic(auto, unfolding(crate::specs::Registers::byte_at))]
pub fn byte_at(word: u16, right: bool) -> u16
    ensures { result ≡ byte_at word right }
{
    words::pick(right, words::bits(word, 6, 11), words::bits(word, 0, 5))
}

// How many moves a byte asks.
#[tactic(auto, unfolding(crate::specs::Registers::moves_asked))]
pub fn moves_asked(byte: u16) -> u16
    ensures { result ≡ moves_asked byte }
{
    let moves = byte / 8 % 4;
    words::pick(moves == 0, 1, moves)
}

// Whether a byte escapes.
#[tactic(auto, unfolding(crate::specs::Registers::escapes))]
pub fn escapes(byte: u16) -> bool
    ensures { result ≡ escapes byte }
{
    byte / 8 % 4 == 0
}

#[tactic(auto, unfolding(crate::specs::Registers::held_in_range))]
fn held_in_range(h: Option<u16>) -> bool
    ensures { result ≡ held_in_range h }
{
    match h {
        None => true,
        Some(word) => word <= 4095,
    }
}

#[tactic(auto, unfolding(crate::specs::Registers::numbers_in_range))]
fn numbers_in_range(b: Base) -> bool
    ensures { result ≡ numbers_in_range b }
{
    let held = b.held;
    (b.address.number() < 32768)
        & (b.pointer.number() < 4096)
        & (b.x < 8192)
        & (b.y < 8192)
        & (b.mode < 8)
        & (b.scale < 4)
        & (b.intensity < 8)
        & (b.buttons < 4096)
        & (b.conditions < 4096)
        & (b.starting < 64)
        & held_in_range(held)
}

#[tactic(auto, unfolding(crate::specs::Registers::line_in_range))]
fn line_in_range(l: LineMotion) -> bool
    ensures { result ≡ line_in_range l }
{
    (l.magx < 1024)
        & (l.magy < 1024)
        & (l.moves == larger(l.magx, l.magy))
        & (1 <= l.moves)
        & (l.done < l.moves)
}

#[tactic(auto, unfolding(crate::specs::Registers::counts_in_range))]
fn counts_in_range(t: ByteMotion) -> bool
    ensures { result ≡ counts_in_range t }
{
    let asked = moves_asked(byte_at(t.word, t.right));
    (t.word < 4096) & (1 <= t.moves) & (t.moves <= asked)
}

#[tactic(auto, unfolding(crate::specs::Registers::bytes_in_range))]
fn bytes_in_range(t: ByteMotion) -> bool
    ensures { result ≡ bytes_in_range t }
{
    let dropped = escapes(byte_at(t.word, false));
    counts_in_range(t) & !(t.right & dropped)
}

#[tactic(auto, unfolding(crate::specs::Registers::stage_in_range))]
fn stage_in_range(s: Stage) -> bool
    ensures { result ≡ stage_in_range s }
{
    match s {
        Stage::Table => true,
        Stage::Routine(_, next) => next.number() < 32768,
        Stage::Increments(from, t) => counts_in_range(t) & (from.number() < 32768),
        Stage::Short(from, l) => line_in_range(l) & (from.number() < 32768),
    }
}

#[tactic(auto, unfolding(crate::specs::Registers::character_in_range))]
fn character_in_range(c: CharacterMotion) -> bool
    ensures { result ≡ character_in_range c }
{
    let stage = c.stage;
    (c.word < 4096) & stage_in_range(stage)
}

#[tactic(auto, unfolding(crate::specs::Registers::motion_in_range))]
fn motion_in_range(m: Motion, datastate: bool, mode: u8) -> bool
    ensures { result ≡ motion_in_range m datastate mode }
{
    match m {
        Motion::Nothing => true,
        Motion::Line(lastword, l) => {
            datastate & (2 <= mode) & (mode <= 4) & line_in_range(l) & (lastword.number() < 32768)
        }
        Motion::Bytes(lastword, t) => {
            datastate & (mode == 1) & bytes_in_range(t) & (lastword.number() < 32768)
        }
        Motion::Character(c) => character_in_range(c),
    }
}

// Whether the registers are in range: a call whose registers are not gets refusal 4.
#[tactic(auto, unfolding(crate::specs::Registers::in_range))]
pub fn in_range(r: Registers) -> bool
    ensures { result ≡ in_range r }
{
    let b = r.base;
    let m = r.motion;
    numbers_in_range(b) & motion_in_range(m, b.datastate, b.mode)
}

// Fresh registers: all zero, control state, not running, no word held, no motion.
pub fn fresh() -> Registers
    ensures { result ≡ fresh }
{
    let base = Base {
        x: 0,
        y: 0,
        conditions: 0,
        address: DisplayAddress::at(0),
        pointer: PushdownPointer::at(0),
        buttons: 0,
        scale: 0,
        intensity: 0,
        mode: 0,
        starting: 0,
        datastate: false,
        running: false,
        horizontal: false,
        vertical: false,
        blink: false,
        pen: false,
        hold: false,
        request: false,
        sense: false,
        idle: false,
        hit1: false,
        hit2: false,
        internal: false,
        external: false,
        penflag: false,
        manual: false,
        upper: false,
        seven: false,
        held: None,
    };
    Registers {
        base,
        motion: Motion::Nothing,
    }
}
