// The control words 4, 5, 60 and 61: skips on the buttons. The other skips are in skips.
#![tactic(auto)]

ghost use Rattle.std.specs.Prelude.{◌≡◌};
ghost use Rattle.button_skips.specs.ControlWords.{skips, changed, with_byte, button_skip, compare};

use registers::Base;

// Whether a word of six buttons makes the display skip: a selected button is 0 or, by sense, 1.
#[tactic(auto, unfolding(crate::specs::ControlWords::skips))]
fn skips(buttons: u16, selected: u16, sense: bool) -> bool
    ensures { result ≡ skips buttons selected sense }
{
    let on = buttons & selected;
    words::pick(sense, on != 0, on != selected)
}

// Six buttons, the selected ones cleared, then complemented.
#[tactic(auto, unfolding(crate::specs::ControlWords::changed))]
fn changed(buttons: u16, selected: u16, clear: bool, complement: bool) -> u16
    ensures { result ≡ changed buttons selected clear complement }
{
    let left = words::pick(clear, buttons - (buttons & selected), buttons);
    words::pick(complement, left ^ selected, left)
}

// A word with its left or its right six bits set.
#[tactic(auto, unfolding(crate::specs::ControlWords::with_byte))]
fn with_byte(word: u16, right: bool, byte: u16) -> u16
    ensures { result ≡ with_byte word right byte }
{
    words::pick(
        right,
        word / 64 * 64 + byte % 64,
        byte % 64 * 64 + word % 64,
    )
}

// 4 and 5: skip on the selected buttons of bank 1 or, with `second`, of bank 2.
#[tactic(auto, unfolding(crate::specs::ControlWords::button_skip, skips::specs::ControlWords::skipping))]
pub fn button_skip(b: Base, word: u16, second: bool) -> Base
    ensures { result ≡ button_skip b word second }
{
    let bank = registers::byte_at(b.buttons, second);
    let selected = words::bits(word, 6, 11);
    let skip = skips(bank, selected, words::bit(word, 3));
    let after = changed(bank, selected, words::bit(word, 4), words::bit(word, 5));
    skips::skip_set(
        b,
        skip,
        with_byte(b.buttons, second, after),
        b.sense,
        b.idle,
    )
}

// 60 and 61: skip unless the bank equals bits 6 to 11.
#[tactic(auto, unfolding(crate::specs::ControlWords::compare, skips::specs::ControlWords::skipping))]
pub fn compare(b: Base, word: u16, second: bool) -> Base
    ensures { result ≡ compare b word second }
{
    let bank = registers::byte_at(b.buttons, second);
    let wanted = words::bits(word, 6, 11);
    skips::skip_set(b, bank != wanted, b.buttons, b.sense, b.idle)
}
