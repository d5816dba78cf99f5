// The control words 0 to 3, each on the registers other than the motion. A command picks the new values and calls a setter: only setters hold a
// struct literal, which keeps both the compiled code and the proofs small. Words 4 to 7 are in skips and button_skips.
#![tactic(auto)]

ghost use Rattle.std.specs.Prelude.{◌≡◌};
ghost use Rattle.control.specs.ControlWords.{scale_by, pen_by, intensity_by, parameter, coordinate, mode, jump, push, pushed_first, pushed_second, pop};
ghost use Rattle.control.specs.Setters.{status_set, mode_set};

use addresses::{DisplayAddress, PushdownPointer};
use registers::Base;

fn status_set(
    b: Base,
    address: DisplayAddress,
    pointer: PushdownPointer,
    scale: u8,
    pen: bool,
    intensity: u8,
    mode: u8,
    datastate: bool,
) -> Base
    ensures { result ≡ status_set b address pointer scale pen intensity mode datastate }
{
    Base {
        address,
        pointer,
        scale,
        pen,
        intensity,
        mode,
        datastate,
        ..b
    }
}

fn mode_set(
    b: Base,
    address: DisplayAddress,
    x: u16,
    y: u16,
    mode: u8,
    datastate: bool,
    running: bool,
    hit1: bool,
    hit2: bool,
    internal: bool,
) -> Base
    ensures { result ≡ mode_set b address x y mode datastate running hit1 hit2 internal }
{
    Base {
        address,
        x,
        y,
        mode,
        datastate,
        running,
        hit1,
        hit2,
        internal,
        ..b
    }
}

// Scale and pen by their enable bits, as words 0, 2 and 3 and the character generator's parameter character share them. One line each: a function over the places
// would be called with three numbers.
#[tactic(auto, unfolding(crate::specs::ControlWords::scale_by))]
pub fn scale_by(word: u16, old: u8) -> u8
    ensures { result ≡ scale_by word old }
{
    words::pick(words::bit(word, 3), words::bits(word, 4, 5) as u8, old)
}

#[tactic(auto, unfolding(crate::specs::ControlWords::pen_by))]
pub fn pen_by(word: u16, old: bool) -> bool
    ensures { result ≡ pen_by word old }
{
    words::pick(words::bit(word, 6), words::bit(word, 7), old)
}

// Intensity by its enable bit, as word 0 and the parameter character share it.
#[tactic(auto, unfolding(crate::specs::ControlWords::intensity_by))]
pub fn intensity_by(word: u16, old: u8) -> u8
    ensures { result ≡ intensity_by word old }
{
    words::pick(words::bit(word, 8), words::bits(word, 9, 11) as u8, old)
}

// 0: scale, pen, intensity.
#[tactic(auto, unfolding(crate::specs::ControlWords::parameter))]
pub fn parameter(b: Base, word: u16) -> Base
    ensures { result ≡ parameter b word }
{
    let scale = scale_by(word, b.scale);
    let pen = pen_by(word, b.pen);
    let intensity = intensity_by(word, b.intensity);
    status_set(
        b,
        b.address.after(1),
        b.pointer,
        scale,
        pen,
        intensity,
        b.mode,
        b.datastate,
    )
}

// A coordinate with its high 3 or its low 10 bits cleared by bits 9 and 10.
#[tactic(auto, unfolding(crate::specs::ControlWords::coordinate))]
fn coordinate(word: u16, value: u16) -> u16
    ensures { result ≡ coordinate word value }
{
    let low = words::pick(words::bit(word, 9), value % 1024, value);
    words::pick(words::bit(word, 10), low / 1024 * 1024, low)
}

// 1: stop, hit flags, mode, coordinates, data state.
#[tactic(auto, unfolding(crate::specs::ControlWords::mode))]
pub fn mode(b: Base, word: u16) -> Base
    ensures { result ≡ mode b word }
{
    let stop = words::bit(word, 3);
    let clear = words::bit(word, 4);
    let enter = words::bit(word, 11);
    let number = words::pick(words::bit(word, 5), words::bits(word, 6, 8) as u8, b.mode);
    let x = coordinate(word, b.x);
    let y = coordinate(word, b.y);
    mode_set(
        b,
        b.address.after(1),
        x,
        y,
        number,
        b.datastate | enter,
        b.running & !stop,
        b.hit1 & !clear,
        b.hit2 & !clear,
        b.internal | stop,
    )
}

// 2: jump to the address of its two words.
#[tactic(auto, unfolding(crate::specs::ControlWords::jump))]
pub fn jump(b: Base, word: u16, second: u16) -> Base
    ensures { result ≡ jump b word second }
{
    let address = DisplayAddress::in_field(words::bits(word, 9, 11), second);
    let scale = scale_by(word, b.scale);
    let pen = pen_by(word, b.pen);
    status_set(
        b,
        address,
        b.pointer,
        scale,
        pen,
        b.intensity,
        b.mode,
        b.datastate,
    )
}

// 2, with bit 8: the same, and the pointer goes on by the two words that are stored.
#[tactic(auto, unfolding(crate::specs::ControlWords::push, crate::specs::ControlWords::jump))]
pub fn push(b: Base, word: u16, second: u16) -> Base
    ensures { result ≡ push b word second }
{
    let address = DisplayAddress::in_field(words::bits(word, 9, 11), second);
    let scale = scale_by(word, b.scale);
    let pen = pen_by(word, b.pen);
    status_set(
        b,
        address,
        b.pointer.after(2),
        scale,
        pen,
        b.intensity,
        b.mode,
        b.datastate,
    )
}

// What a push stores first: the return address's break field and the old status.
#[tactic(auto, unfolding(crate::specs::ControlWords::pushed_first))]
pub fn pushed_first(b: Base) -> u16
    ensures { result ≡ pushed_first b }
{
    b.address.after(2).break_field() * 512 + status::flag_at(b.pen, 256) + status::settings(b)
}

// What it stores next: the return address's low 12 bits.
#[tactic(auto, unfolding(crate::specs::ControlWords::pushed_second))]
pub fn pushed_second(b: Base) -> u16
    ensures { result ≡ pushed_second b }
{
    b.address.after(2).low_bits()
}

// 3: pop the two words that a push stored; its own scale and pen come after.
#[tactic(auto, unfolding(crate::specs::ControlWords::pop))]
pub fn pop(b: Base, word: u16, first: u16, second: u16) -> Base
    ensures { result ≡ pop b word first second }
{
    let address = DisplayAddress::in_field(words::bits(first, 0, 2), second);
    let mode = words::pick(!words::bit(word, 8), words::bits(first, 6, 8) as u8, b.mode);
    let inhibit = words::bit(word, 9);
    let scale = words::pick(!inhibit, words::bits(first, 4, 5) as u8, b.scale);
    let pen = words::pick(!inhibit, words::bit(first, 3), b.pen);
    let intensity = words::pick(
        !words::bit(word, 10),
        words::bits(first, 9, 11) as u8,
        b.intensity,
    );
    let enter = words::bit(word, 11);
    status_set(
        b,
        address,
        b.pointer.before(2),
        scale_by(word, scale),
        pen_by(word, pen),
        intensity,
        mode,
        b.datastate | enter,
    )
}
