// The two status words of the display, the word of its character generator, and the low bits of the push's first word, which status 2 shares.
#![tactic(auto)]

ghost use Rattle.std.specs.Prelude.{◌≡◌};
ghost use Rattle.status.specs.Status.{settings, interrupts, status_one, stage_byte_flag, byte_flag, status_two, right_character, generator_word};
ghost use Rattle.status.specs.FlagAt.{FlagAt};

use registers::{Base, Motion, Stage};

// The weight of a flag in a word, or 0 where the flag is off. That it is no more than the weight keeps the sums below small.
#[tactic(auto, unfolding(words::specs::Words::pick))]
pub fn flag_at(on: bool, weight: u16) -> u16
    ensures { FlagAt on weight result }
{
    if on { weight } else { 0 }
}

// Scale, mode and intensity as status 2 and the push's first word hold them.
pub fn settings(b: Base) -> u16
    ensures { result ≡ settings b }
{
    (b.scale as u16) % 4 * 64 + (b.mode as u16) % 8 * 8 + (b.intensity as u16) % 8
}

// Whether one of the six flags is on and reaches the interrupt line.
#[tactic(auto, unfolding(crate::specs::Status::interrupts))]
fn interrupts(b: Base) -> bool
    ensures { result ≡ interrupts b }
{
    let edge = words::bit(b.conditions, 0);
    let pen = words::bit(b.conditions, 1);
    let hit = words::bit(b.conditions, 10);
    let internal = words::bit(b.conditions, 11);
    b.external
        | b.manual
        | (b.vertical | b.horizontal) & edge
        | b.penflag & pen
        | (b.hit1 | b.hit2) & hit
        | b.internal & internal
}

#[tactic(auto, unfolding(crate::specs::Status::status_one))]
pub fn status_one(b: Base) -> u16
    ensures { result ≡ status_one b }
{
    let screen = paper::sector_zero(b.x, b.y);
    let due = interrupts(b);
    flag_at(b.penflag, 2048)
        + flag_at(b.vertical, 1024)
        + flag_at(b.horizontal, 512)
        + flag_at(b.internal, 256)
        + flag_at(screen, 128)
        + flag_at(!b.datastate, 64)
        + flag_at(b.manual, 32)
        + flag_at(b.hit1 | b.hit2, 16)
        + flag_at(due, 8)
        + b.address.break_field()
}

// Whether the right byte of a routine's increment word is under way.
#[tactic(auto, unfolding(crate::specs::Status::stage_byte_flag))]
fn stage_byte_flag(s: Stage) -> bool
    ensures { result ≡ stage_byte_flag s }
{
    matches!(s, Stage::Increments(_, t) if t.right)
}

// Whether the right byte of an increment word is under way.
#[tactic(auto, unfolding(crate::specs::Status::byte_flag))]
fn byte_flag(m: Motion) -> bool
    ensures { result ≡ byte_flag m }
{
    match m {
        Motion::Bytes(_, t) => t.right,
        Motion::Character(c) => stage_byte_flag(c.stage),
        _ => false,
    }
}

#[tactic(auto, unfolding(crate::specs::Status::status_two))]
pub fn status_two(b: Base, m: Motion) -> u16
    ensures { result ≡ status_two b m }
{
    flag_at(byte_flag(m), 2048)
        + flag_at(b.pen, 1024)
        + b.y / 4096 * 512
        + b.x / 4096 * 256
        + settings(b)
}

// Whether a right character is under way.
#[tactic(auto, unfolding(crate::specs::Status::right_character))]
fn right_character(m: Motion) -> bool
    ensures { result ≡ right_character m }
{
    matches!(m, Motion::Character(c) if c.right)
}

// The character generator's word.
#[tactic(auto, unfolding(crate::specs::Status::generator_word))]
pub fn generator_word(b: Base, m: Motion) -> u16
    ensures { result ≡ generator_word b m }
{
    flag_at(b.datastate & (b.mode == 5), 2048)
        + flag_at(right_character(m), 1024)
        + flag_at(b.upper, 256)
        + flag_at(b.seven, 128)
        + (b.starting as u16) % 64
}
