// The data words: what the command beat of each mode does once its words are fetched.
#![tactic(auto)]

ghost use Rattle.std.specs.Prelude.{◌≡◌};
ghost use Rattle.registers.specs.With.{with_address};
ghost use Rattle.drawing.specs.Setters.{state_set};
ghost use Rattle.drawing.specs.DataWords.{unlit, placed, point, increment, vector_line, short_line, begun, vector, short_vector, character, graphplot};

use addresses::DisplayAddress;
use beam::{Outcome, Stop};
use paper::Reached;
use registers::{Base, ByteMotion, CharacterMotion, LineMotion, Motion, Registers, Stage};

fn state_set(b: Base, address: DisplayAddress, datastate: bool) -> Base
    ensures { result ≡ state_set b address datastate }
{
    Base {
        address,
        datastate,
        ..b
    }
}

// A command beat that lights nothing and stops nothing.
pub fn unlit(base: Base, motion: Motion) -> Outcome
    ensures { result ≡ unlit base motion }
{
    let registers = Registers { base, motion };
    Outcome {
        registers,
        lit: None,
        stop: None,
    }
}

// A coordinate with the ten low bits of a word, unless inhibited.
#[tactic(auto, unfolding(crate::specs::DataWords::placed))]
fn placed(word: u16, old: u16, inhibit: bool) -> Reached
    ensures { result ≡ placed word old inhibit }
{
    let value = words::pick(!inhibit, old / 1024 * 1024 + words::bits(word, 2, 11), old);
    Reached {
        value,
        violated: false,
    }
}

// Mode 0: y in the first word, x in the second.
#[tactic(auto, unfolding(crate::specs::DataWords::point))]
pub fn point(b: Base, word: u16, second: u16) -> Outcome
    ensures { result ≡ point b word second }
{
    let y = placed(word, b.y, words::bit(word, 1));
    let x = placed(second, b.x, words::bit(second, 1));
    let next = state_set(b, b.address.after(2), b.datastate);
    let lastword = b.address.after(1);
    beam::arrived(
        next,
        Motion::Nothing,
        lastword,
        x,
        y,
        words::bit(word, 0),
        words::bit(second, 0),
    )
}

// Mode 1: the left byte first.
#[tactic(auto, unfolding(crate::specs::DataWords::increment))]
pub fn increment(b: Base, word: u16) -> Outcome
    ensures { result ≡ increment b word }
{
    let moves = registers::moves_asked(registers::byte_at(word, false));
    let next = state_set(b, b.address.after(1), b.datastate);
    let bytes = ByteMotion {
        word,
        moves,
        right: false,
    };
    let lastword = b.address;
    unlit(next, Motion::Bytes(lastword, bytes))
}

// The line of a vector's two words.
#[tactic(auto, unfolding(crate::specs::DataWords::vector_line))]
fn vector_line(word: u16, second: u16) -> LineMotion
    ensures { result ≡ vector_line word second }
{
    let magx = words::bits(second, 2, 11);
    let magy = words::bits(word, 2, 11);
    let moves = registers::larger(magx, magy);
    LineMotion {
        magx,
        magy,
        minusx: words::bit(second, 1),
        minusy: words::bit(word, 1),
        lit: words::bit(word, 0),
        escape: words::bit(second, 0),
        moves,
        done: 0,
    }
}

// The line of a short vector's word. No one function with `vector_line`: each field would be a parameter.
#[tactic(auto, unfolding(crate::specs::DataWords::short_line))]
pub fn short_line(word: u16) -> LineMotion
    ensures { result ≡ short_line word }
{
    let magx = words::bits(word, 8, 11);
    let magy = words::bits(word, 2, 5);
    let moves = registers::larger(magx, magy);
    LineMotion {
        magx,
        magy,
        minusx: words::bit(word, 7),
        minusy: words::bit(word, 1),
        lit: words::bit(word, 0),
        escape: words::bit(word, 6),
        moves,
        done: 0,
    }
}

// A line begins; one with both magnitudes 0 ends at once.
#[tactic(auto, unfolding(crate::specs::DataWords::begun, words::specs::Words::pick))]
fn begun(b: Base, address: DisplayAddress, lastword: DisplayAddress, line: LineMotion) -> Outcome
    ensures { result ≡ begun (with_address b address) lastword line }
{
    if line.moves == 0 {
        unlit(
            state_set(b, address, b.datastate & !line.escape),
            Motion::Nothing,
        )
    } else {
        unlit(
            state_set(b, address, b.datastate),
            Motion::Line(lastword, line),
        )
    }
}

// Modes 2 and 3: y in the first word, x in the second.
#[tactic(auto, unfolding(crate::specs::DataWords::vector))]
pub fn vector(b: Base, word: u16, second: u16) -> Outcome
    ensures { result ≡ vector b word second }
{
    begun(
        b,
        b.address.after(2),
        b.address.after(1),
        vector_line(word, second),
    )
}

// Mode 4: both in one word.
#[tactic(auto, unfolding(crate::specs::DataWords::short_vector))]
pub fn short_vector(b: Base, word: u16) -> Outcome
    ensures { result ≡ short_vector b word }
{
    begun(b, b.address.after(1), b.address, short_line(word))
}

// Mode 5: one character of seven bits, or two of six, the left one first. The code size is that of this beat.
#[tactic(auto, unfolding(crate::specs::DataWords::character))]
pub fn character(b: Base, word: u16) -> Outcome
    ensures { result ≡ character b word }
{
    let next = state_set(b, b.address.after(1), b.datastate);
    let character = CharacterMotion {
        word,
        seven: b.seven,
        right: false,
        stage: Stage::Table,
    };
    unlit(next, Motion::Character(character))
}

// Mode 6: one axis moves on, the other is set.
#[tactic(auto, unfolding(crate::specs::DataWords::graphplot, words::specs::Words::pick))]
pub fn graphplot(b: Base, word: u16) -> Outcome
    ensures { result ≡ graphplot b word }
{
    let distance = paper::distance(b.scale);
    let next = state_set(b, b.address.after(1), b.datastate);
    let escape = words::bit(word, 0);
    if words::bit(word, 1) {
        let y = paper::moved(beam::field_y(b), b.y, distance, false);
        beam::arrived(
            next,
            Motion::Nothing,
            b.address,
            placed(word, b.x, false),
            y,
            true,
            escape,
        )
    } else {
        let x = paper::moved(beam::field_x(b), b.x, distance, false);
        beam::arrived(
            next,
            Motion::Nothing,
            b.address,
            x,
            placed(word, b.y, false),
            true,
            escape,
        )
    }
}
