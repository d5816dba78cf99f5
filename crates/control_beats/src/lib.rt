// The beats of control words: the touches of each in order, then what it does.
#![tactic(auto)]

ghost use Rattle.std.specs.Prelude.{◌≡◌};
ghost use Rattle.touches.specs.Touches.{walk};
ghost use Rattle.touches.specs.Said.{said};
ghost use Rattle.control_beats.specs.ControlWords.{hold_ended, ready, done, push_act, jump_beat, pop_beat, miscellaneous, control_beat};

use beam::{Outcome, Stop};
use registers::{Base, Motion, Registers};
use touches::{Act, Lent, Push, Turn, Why};

// How every beat that fetches begins: pen hold ends.
pub fn hold_ended(b: Base) -> Base
    ensures { result ≡ hold_ended b }
{
    Base {
        pen: b.pen | b.hold,
        hold: false,
        ..b
    }
}

// How every command beat begins: pen hold ends, and the held word is used up.
pub fn ready(b: Base) -> Base
    ensures { result ≡ ready b }
{
    Base {
        held: None,
        ..hold_ended(b)
    }
}

// A control word that stores nothing.
fn done(base: Base, stop: Option<Stop>) -> Outcome
    ensures { result ≡ done base stop }
{
    let registers = Registers {
        base,
        motion: Motion::Nothing,
    };
    Outcome {
        registers,
        lit: None,
        stop,
    }
}

#[tactic(auto, unfolding(crate::specs::ControlWords::push_act))]
fn push_act(b: Base, word: u16, second: u16) -> Act
    ensures { result ≡ push_act b word second }
{
    let base = control::push(b, word, second);
    let registers = Registers {
        base,
        motion: Motion::Nothing,
    };
    let at = b.pointer.in_field_zero();
    let next = b.pointer.after(1).in_field_zero();
    let stores = Some(Push {
        at,
        word: control::pushed_first(b),
        next,
        second: control::pushed_second(b),
    });
    Act {
        registers,
        stores,
        lit: None,
        stop: None,
    }
}

// 2: a jump, or a push.
#[tactic(auto, unfolding(crate::specs::ControlWords::jump_beat, touches::specs::Touches::walk, touches::specs::Touches::allowed, words::specs::Words::pick))]
fn jump_beat(b: Base, word: u16, lent: Lent<'_>) -> Result<Turn, Why>
    ensures { said result ≡ walk lent.entry.loan lent.entry.memory.now (jump_beat b word) }
{
    let second = lent.fetched(b.address.after(1))?;
    if words::bit(word, 8) {
        touches::allowed(lent.loan, push_act(b, word, second))
    } else {
        Ok(Turn::Storeless(done(control::jump(b, word, second), None)))
    }
}

// 3: a pop.
#[tactic(auto, unfolding(crate::specs::ControlWords::pop_beat, touches::specs::Touches::walk, touches::specs::Touches::allowed))]
fn pop_beat(b: Base, word: u16, lent: Lent<'_>) -> Result<Turn, Why>
    ensures { said result ≡ walk lent.entry.loan lent.entry.memory.now (pop_beat b word) }
{
    let first = lent.fetched(b.pointer.before(2).in_field_zero())?;
    let second = lent.fetched(b.pointer.before(1).in_field_zero())?;
    Ok(Turn::Storeless(done(control::pop(b, word, first, second), None)))
}

// 6: the words 60 to 67. The slave words 64 to 67 do nothing.
#[tactic(auto, unfolding(crate::specs::ControlWords::miscellaneous, words::specs::Words::pick))]
fn miscellaneous(b: Base, word: u16) -> Base
    ensures { result ≡ miscellaneous b word }
{
    // A number, and no enum: one would be made of these bits by this same match.
    let kind = words::bits(word, 3, 5);
    match kind {
        0 => button_skips::compare(b, word, false),
        1 => button_skips::compare(b, word, true),
        2 => skips::flag_skip(b, word),
        3 => skips::count(b, word),
        _ => skips::passed(b),
    }
}

#[tactic(auto, unfolding(crate::specs::ControlWords::control_beat, touches::specs::Touches::walk, touches::specs::Touches::allowed, words::specs::Words::pick))]
pub fn control_beat(b: Base, word: u16, lent: Lent<'_>) -> Result<Turn, Why>
    ensures { said result ≡ walk lent.entry.loan lent.entry.memory.now (control_beat b word) }
{
    // A number, as in `miscellaneous`.
    let operation = words::bits(word, 0, 2);
    match operation {
        0 => Ok(Turn::Storeless(done(control::parameter(b, word), None))),
        1 => Ok(Turn::Storeless(done(
            control::mode(b, word),
            words::pick(words::bit(word, 3), Some(Stop::Internal), None),
        ))),
        2 => jump_beat(b, word, lent),
        3 => pop_beat(b, word, lent),
        4 => Ok(Turn::Storeless(done(button_skips::button_skip(b, word, false), None))),
        5 => Ok(Turn::Storeless(done(button_skips::button_skip(b, word, true), None))),
        6 => Ok(Turn::Storeless(done(miscellaneous(b, word), None))),
        _ => Ok(Turn::Storeless(done(skips::sync(b, word), None))),
    }
}
