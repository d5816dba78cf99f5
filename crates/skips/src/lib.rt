// The control words 62 to 67 and 7: skips on flags, counts, and the idle flag; and how every skip goes on. Words 4, 5, 60 and 61 are in button_skips.
#![tactic(auto)]

ghost use Rattle.std.specs.Prelude.{◌≡◌, false};
ghost use Rattle.skips.specs.ControlWords.{skipping, flag_skips, flag_skip, counted, count, sync};
ghost use Rattle.skips.specs.Setters.{skip_set, count_set};

use addresses::DisplayAddress;
use registers::Base;

#[tactic(auto, unfolding(crate::specs::ControlWords::skipping))]
pub fn skip_set(b: Base, skip: bool, buttons: u16, sense: bool, idle: bool) -> Base
    ensures { result ≡ skip_set b skip buttons sense idle }
{
    let address = words::pick(skip, b.address.after(3), b.address.after(1));
    Base {
        address,
        buttons,
        sense,
        idle,
        ..b
    }
}

fn count_set(b: Base, address: DisplayAddress, scale: u8, intensity: u8, blink: bool) -> Base
    ensures { result ≡ count_set b address scale intensity blink }
{
    Base {
        address,
        scale,
        intensity,
        blink,
        ..b
    }
}

// A word that does nothing is passed.
#[tactic(auto, unfolding(crate::specs::ControlWords::skipping))]
pub fn passed(b: Base) -> Base
    ensures { result ≡ skipping b false }
{
    skip_set(b, false, b.buttons, b.sense, b.idle)
}

// Whether a condition that word 62 asks holds.
#[tactic(auto, unfolding(crate::specs::ControlWords::flag_skips))]
fn flag_skips(b: Base, word: u16) -> bool
    ensures { result ≡ flag_skips b word }
{
    let screen = paper::sector_zero(b.x, b.y);
    let away = words::bit(word, 7) & !screen;
    let first = words::bit(word, 8) & !b.hit1;
    let second = words::bit(word, 9) & !b.hit2;
    let dark = words::bit(word, 10) & !b.sense;
    words::bit(word, 6) | away | first | second | dark
}

// 62: skip on flags, then clear LPSI.
#[tactic(auto, unfolding(crate::specs::ControlWords::flag_skip, crate::specs::ControlWords::skipping))]
pub fn flag_skip(b: Base, word: u16) -> Base
    ensures { result ≡ flag_skip b word }
{
    let skip = flag_skips(b, word);
    let clear = words::bit(word, 11);
    skip_set(b, skip, b.buttons, b.sense & !clear, b.idle)
}

// One up, or down, stopping at the ends. Whether it counts and which way are two bits of the word, so both stay parameters.
#[tactic(auto, unfolding(crate::specs::ControlWords::counted, words::specs::Words::pick))]
pub fn counted(value: u8, top: u8, on: bool, down: bool) -> u8
    ensures { result ≡ counted value top on down }
{
    if !on {
        value
    } else if down {
        value.saturating_sub(1)
    } else if value < top {
        value + 1
    } else {
        value
    }
}

// 63: count scale and intensity, blink on, then off.
#[tactic(auto, unfolding(crate::specs::ControlWords::count))]
pub fn count(b: Base, word: u16) -> Base
    ensures { result ≡ count b word }
{
    let scale = counted(b.scale, 3, words::bit(word, 6), words::bit(word, 7));
    let intensity = counted(b.intensity, 7, words::bit(word, 8), words::bit(word, 9));
    let on = words::bit(word, 10);
    let off = words::bit(word, 11);
    count_set(
        b,
        b.address.after(1),
        scale,
        intensity,
        (b.blink | on) & !off,
    )
}

// 7: skip if idle is on, then clear it.
#[tactic(auto, unfolding(crate::specs::ControlWords::sync, crate::specs::ControlWords::skipping))]
pub fn sync(b: Base, word: u16) -> Base
    ensures { result ≡ sync b word }
{
    let skip = words::bit(word, 10) & b.idle;
    let clear = words::bit(word, 11);
    skip_set(b, skip, b.buttons, b.sense, b.idle & !clear)
}
