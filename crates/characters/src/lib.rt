// The character generator: where the table word of a character lies, where its routine begins, and what a table word or a routine word does once it is fetched
// (manual, appendix 1).
#![tactic(auto)]

ghost use Rattle.std.specs.Prelude.{◌≡◌};
ghost use Rattle.characters.specs.Characters.{gated, code, table_address, routine_start, table_word, routine_increments, routine_short, routine_word};

use addresses::DisplayAddress;
use beam::Outcome;
use registers::{Base, ByteMotion, CharacterMotion, Motion, Stage};

// The starting address register as the upper six bits of an address.
#[tactic(auto, unfolding(crate::specs::Characters::gated))]
fn gated(starting: u8) -> u16
    ensures { result ≡ gated starting }
{
    (starting as u16) % 64 * 512
}

// The code of a character, with the case before one of six bits.
#[tactic(auto, unfolding(crate::specs::Characters::code))]
fn code(c: CharacterMotion, upper: bool) -> u16
    ensures { result ≡ code c upper }
{
    let six = registers::byte_at(c.word, c.right);
    words::pick(
        c.seven,
        words::bits(c.word, 5, 11),
        words::pick(upper, 64, 0) + six,
    )
}

// Where the table word of a character lies.
#[tactic(auto, unfolding(crate::specs::Characters::table_address))]
pub fn table_address(c: CharacterMotion, starting: u8, upper: bool) -> DisplayAddress
    ensures { result ≡ table_address c starting upper }
{
    DisplayAddress::at(gated(starting) + code(c, upper))
}

// Where the routine of a dispatch word begins.
#[tactic(auto, unfolding(crate::specs::Characters::routine_start))]
fn routine_start(starting: u8, word: u16) -> DisplayAddress
    ensures { result ≡ routine_start starting word }
{
    DisplayAddress::at(gated(starting) | words::bits(word, 2, 11))
}

// A table word: a control character, or a dispatch to a routine.
#[tactic(auto, unfolding(crate::specs::Characters::table_word, words::specs::Words::pick))]
pub fn table_word(b: Base, c: CharacterMotion, word: u16) -> Outcome
    ensures { result ≡ table_word b c word }
{
    if words::bit(word, 0) {
        control_characters::control_character(b, c, word)
    } else {
        let next = routine_start(b.starting, word);
        drawing::unlit(
            b,
            moves::at_stage(c, Stage::Routine(words::bit(word, 1), next)),
        )
    }
}

// An increment word of a routine.
#[tactic(auto, unfolding(crate::specs::Characters::routine_increments))]
fn routine_increments(c: CharacterMotion, at: DisplayAddress, word: u16) -> Motion
    ensures { result ≡ routine_increments c at word }
{
    let moves = registers::moves_asked(registers::byte_at(word, false));
    let bytes = ByteMotion {
        word,
        moves,
        right: false,
    };
    moves::at_stage(c, Stage::Increments(at, bytes))
}

// A short vector word of a routine; one with both magnitudes 0 is over at once.
#[tactic(auto, unfolding(crate::specs::Characters::routine_short, words::specs::Words::pick))]
fn routine_short(c: CharacterMotion, at: DisplayAddress, word: u16) -> Motion
    ensures { result ≡ routine_short c at word }
{
    let line = drawing::short_line(word);
    if line.moves == 0 {
        moves::after_routine_word(c, true, at, line.escape)
    } else {
        moves::at_stage(c, Stage::Short(at, line))
    }
}

// A word of a routine: its moves are to come.
#[tactic(auto, unfolding(crate::specs::Characters::routine_word, words::specs::Words::pick))]
pub fn routine_word(
    b: Base,
    c: CharacterMotion,
    short: bool,
    at: DisplayAddress,
    word: u16,
) -> Outcome
    ensures { result ≡ routine_word b c short at word }
{
    if short {
        drawing::unlit(b, routine_short(c, at, word))
    } else {
        drawing::unlit(b, routine_increments(c, at, word))
    }
}
