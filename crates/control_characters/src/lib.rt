// The control characters of the character generator, each on the registers other than the motion, and what a control character leaves (manual, A1.1).
#![tactic(auto)]

ghost use Rattle.std.specs.Prelude.{◌≡◌};
ghost use Rattle.control_characters.specs.ControlCharacters.{parameter, starting_by, table, miscellaneous, unused, control_character};
ghost use Rattle.control_characters.specs.Setters.{generator_set};

use beam::{Outcome, Stop};
use registers::{Base, CharacterMotion, Motion, Registers};

fn generator_set(
    b: Base,
    x: u16,
    scale: u8,
    pen: bool,
    intensity: u8,
    datastate: bool,
    starting: u8,
    upper: bool,
    seven: bool,
) -> Base
    ensures { result ≡ generator_set b x scale pen intensity datastate starting upper seven }
{
    Base {
        x,
        scale,
        pen,
        intensity,
        datastate,
        starting,
        upper,
        seven,
        ..b
    }
}

// 100: scale, pen, intensity, as control word 0.
#[tactic(auto, unfolding(crate::specs::ControlCharacters::parameter))]
fn parameter(b: Base, word: u16) -> Base
    ensures { result ≡ parameter b word }
{
    let scale = control::scale_by(word, b.scale);
    let pen = control::pen_by(word, b.pen);
    let intensity = control::intensity_by(word, b.intensity);
    generator_set(
        b,
        b.x,
        scale,
        pen,
        intensity,
        b.datastate,
        b.starting,
        b.upper,
        b.seven,
    )
}

// The starting address register, each half of it by its enable bit.
#[tactic(auto, unfolding(crate::specs::ControlCharacters::starting_by))]
fn starting_by(word: u16, old: u8) -> u8
    ensures { result ≡ starting_by word old }
{
    let high = words::pick(words::bit(word, 4), words::bits(word, 6, 8) as u8, old / 8);
    let low = words::pick(words::bit(word, 5), words::bits(word, 9, 11) as u8, old % 8);
    high * 8 + low
}

// 101: the case, always, and the starting address register.
#[tactic(auto, unfolding(crate::specs::ControlCharacters::table))]
fn table(b: Base, word: u16) -> Base
    ensures { result ≡ table b word }
{
    generator_set(
        b,
        b.x,
        b.scale,
        b.pen,
        b.intensity,
        b.datastate,
        starting_by(word, b.starting),
        words::bit(word, 3),
        b.seven,
    )
}

// 110: code size, carriage return, escape, counts.
#[tactic(auto, unfolding(crate::specs::ControlCharacters::miscellaneous))]
fn miscellaneous(b: Base, word: u16) -> Base
    ensures { result ≡ miscellaneous b word }
{
    let seven = words::pick(words::bit(word, 3), words::bit(word, 4), b.seven);
    let x = words::pick(words::bit(word, 5), b.x / 1024 * 1024, b.x);
    let scale = skips::counted(b.scale, 3, words::bit(word, 7), words::bit(word, 8));
    let intensity = skips::counted(b.intensity, 7, words::bit(word, 9), words::bit(word, 10));
    generator_set(
        b,
        x,
        scale,
        b.pen,
        intensity,
        b.datastate & !words::bit(word, 6),
        b.starting,
        b.upper,
        seven,
    )
}

// 111: the display stops, and that character ends.
#[tactic(auto, unfolding(crate::specs::ControlCharacters::unused))]
fn unused(b: Base, after: Motion) -> Outcome
    ensures { result ≡ unused b after }
{
    let base = Base {
        running: false,
        ..b
    };
    let registers = Registers {
        base,
        motion: after,
    };
    Outcome {
        registers,
        lit: None,
        stop: Some(Stop::Unused),
    }
}

// A control character, by its form. An escape to control state drops the right character.
#[tactic(auto, unfolding(crate::specs::ControlCharacters::control_character, words::specs::Words::pick))]
pub fn control_character(b: Base, c: CharacterMotion, word: u16) -> Outcome
    ensures { result ≡ control_character b c word }
{
    // A number, and no enum: one would be made of these bits by this same match.
    let form = words::bits(word, 1, 2);
    match form {
        0 => drawing::unlit(parameter(b, word), moves::after_character(c)),
        1 => drawing::unlit(table(b, word), moves::after_character(c)),
        2 => {
            if words::bit(word, 6) {
                drawing::unlit(miscellaneous(b, word), Motion::Nothing)
            } else {
                drawing::unlit(miscellaneous(b, word), moves::after_character(c))
            }
        }
        _ => unused(b, moves::after_character(c)),
    }
}
