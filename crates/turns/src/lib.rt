// A beat, by the registers that make it; and one turn of a run, which may end before the beat.
#![tactic(auto)]

ghost use Rattle.std.specs.Prelude.{◌≡◌, true, false};
ghost use Rattle.touches.specs.Touches.{Does, whole, walk};
ghost use Rattle.touches.specs.Said.{said};
ghost use Rattle.turns.specs.OneTurn.{long_beat, data_beat, command_beat, unusable, idle_beat, table_beat, routine_beat, room_for, turn};
ghost use Rattle.turns.specs.Drawing.{Drawing};

use addresses::DisplayAddress;
use beam::Outcome;
use moves::Moving;
use registers::{Base, CharacterMotion, Registers};
use touches::{Lent, Resting, Turn, Why};

// A beat that stores nothing, if there is room for its point. Every beat asks for room where it is made: then nothing needs the registers before it any more,
// and they can be changed in place.
#[tactic(auto, unfolding(crate::specs::OneTurn::room_for, words::specs::Words::pick))]
fn roomed(c: Outcome, room: usize) -> Result<Turn, Why>
    ensures { said result ≡ room_for room (Does (whole c)) }
{
    if c.lit.is_some() & (room == 0) {
        return Err(Why::Full);
    }
    Ok(Turn::Storeless(c))
}

// The data words of two words: a point, or a vector of either kind.
#[tactic(auto, unfolding(crate::specs::OneTurn::long_beat, crate::specs::OneTurn::room_for, touches::specs::Touches::walk, touches::specs::Touches::allowed, words::specs::Words::pick))]
fn long_beat(b: Base, word: u16, lent: Lent<'_>, room: usize) -> Result<Turn, Why>
    ensures { said result ≡ room_for room (walk lent.entry.loan lent.entry.memory.now (long_beat b word)) }
{
    let second = lent.fetched(b.address.after(1))?;
    if b.mode == 0 {
        roomed(drawing::point(b, word, second), room)
    } else {
        roomed(drawing::vector(b, word, second), room)
    }
}

#[tactic(auto, unfolding(crate::specs::OneTurn::data_beat, touches::specs::Touches::walk, touches::specs::Touches::allowed, words::specs::Words::pick))]
fn data_beat(b: Base, word: u16, lent: Lent<'_>, room: usize) -> Result<Turn, Why>
    ensures { said result ≡ room_for room (walk lent.entry.loan lent.entry.memory.now (data_beat b word)) }
{
    // A number: what is handed in as the register of the mode may be none of the eight, and refusal 4 has to see that.
    let mode = b.mode;
    match mode {
        1 => roomed(drawing::increment(b, word), room),
        4 => roomed(drawing::short_vector(b, word), room),
        5 => roomed(drawing::character(b, word), room),
        6 => roomed(drawing::graphplot(b, word), room),
        _ => long_beat(b, word, lent, room),
    }
}

// The beat of a data word: a command in data state.
#[tactic(auto, unfolding(words::specs::Words::pick))]
fn command_beat(b: Base, word: u16, lent: Lent<'_>, room: usize) -> Result<Turn, Why>
    requires { b.datastate ≡ true }
    ensures { said result ≡ room_for room (walk lent.entry.loan lent.entry.memory.now (command_beat b word)) }
{
    let ready = control_beats::ready(b);
    data_beat(ready, word, lent, room)
}

// Data state in a mode that the display has not.
#[tactic(auto, unfolding(crate::specs::OneTurn::unusable))]
fn unusable(b: Base) -> bool
    ensures { result ≡ unusable b }
{
    b.datastate & (b.mode == 7)
}

// No motion: a stop request, an unusable mode, or the next data word.
fn idle_beat(b: Base, lent: Lent<'_>, room: usize) -> Result<Turn, Why>
    requires { b.request ≡ false → b.datastate ≡ true }
    ensures { said result ≡ room_for room (walk lent.entry.loan lent.entry.memory.now (idle_beat b)) }
{
    if b.request {
        let word = lent.taken(b)?;
        Ok(Turn::Rests(Resting::External(word)))
    } else if unusable(b) {
        Ok(Turn::Rests(Resting::Unusable))
    } else {
        let word = lent.taken(b)?;
        command_beat(b, word, lent, room)
    }
}

// The beat that fetches a character's table word.
#[tactic(auto, unfolding(crate::specs::OneTurn::table_beat, crate::specs::OneTurn::room_for, touches::specs::Touches::walk, touches::specs::Touches::allowed))]
fn table_beat(b: Base, c: CharacterMotion, lent: Lent<'_>, room: usize) -> Result<Turn, Why>
    ensures { said result ≡ room_for room (walk lent.entry.loan lent.entry.memory.now (table_beat b c)) }
{
    let at = characters::table_address(c, b.starting, b.upper);
    let word = lent.fetched(at)?;
    let base = control_beats::hold_ended(b);
    roomed(characters::table_word(base, c, word), room)
}

// The beat that fetches a word of a character's routine.
#[tactic(auto, unfolding(crate::specs::OneTurn::routine_beat, crate::specs::OneTurn::room_for, touches::specs::Touches::walk, touches::specs::Touches::allowed))]
fn routine_beat(
    b: Base,
    c: CharacterMotion,
    short: bool,
    at: DisplayAddress,
    lent: Lent<'_>,
    room: usize,
) -> Result<Turn, Why>
    ensures { said result ≡ room_for room (walk lent.entry.loan lent.entry.memory.now (routine_beat b c short at)) }
{
    let word = lent.fetched(at)?;
    let base = control_beats::hold_ended(b);
    roomed(characters::routine_word(base, c, short, at, word), room)
}

// One turn: the beat, if its touches can be made and there is room for its point. Control words are control_sequence's.
#[tactic(auto, unfolding(crate::specs::OneTurn::turn, touches::specs::Touches::walk, touches::specs::Touches::allowed))]
pub fn turn(r: Registers, lent: Lent<'_>, room: usize) -> Result<Turn, Why>
    requires { Drawing r }
    ensures { said result ≡ turn lent.entry.loan room r lent.entry.memory.now }
{
    let m = r.motion;
    let b = r.base;
    match moves::next_move(m, b.mode, b.scale) {
        Moving::Going(v) => roomed(moves::displaced(b, v), room),
        Moving::Still => idle_beat(b, lent, room),
        Moving::Looks(c) => table_beat(b, c, lent, room),
        Moving::Reads(c, short, at) => routine_beat(b, c, short, at, lent, room),
    }
}
