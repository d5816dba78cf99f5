// What the host operations 7 to 12 and the reading of the hit flags do to the registers other than the motion: the pen, the buttons, the manual interrupt and
// the idle flag. Those from 1 to 6 are in operations.
#![tactic(auto)]

ghost use Rattle.std.specs.Prelude.{◌≡◌};
ghost use Rattle.inputs.specs.HostOperations.{pen_lit, pressed, group_cleared, interrupted, idled, hits_read};

use registers::Base;

// 7: the pen sees light.
pub fn pen_lit(b: Base) -> Base
    ensures { result ≡ pen_lit b }
{
    let found = b.running & b.pen;
    Base {
        sense: true,
        penflag: b.penflag | found,
        running: b.running & !found,
        ..b
    }
}

// 8: press a button, 0 to 11.
#[tactic(auto, unfolding(crate::specs::HostOperations::pressed))]
pub fn pressed(b: Base, button: u16) -> Base
    ensures { result ≡ pressed b button }
{
    let buttons = b.buttons ^ words::weight(button);
    Base {
        buttons,
        hit1: b.hit1 | (button < 6),
        hit2: b.hit2 | (6 <= button),
        ..b
    }
}

// 9: clear the buttons of group 0 or 1.
#[tactic(auto, unfolding(crate::specs::HostOperations::group_cleared))]
pub fn group_cleared(b: Base, group: u16) -> Base
    ensures { result ≡ group_cleared b group }
{
    let buttons = words::pick(group == 0, b.buttons % 64, b.buttons / 64 * 64);
    Base { buttons, ..b }
}

// 10 and 11: the manual interrupt on and off.
pub fn interrupted(b: Base, manual: bool) -> Base
    ensures { result ≡ interrupted b manual }
{
    Base { manual, ..b }
}

// 12: idle on.
pub fn idled(b: Base) -> Base
    ensures { result ≡ idled b }
{
    Base { idle: true, ..b }
}

// 24, after its word is read: both hit flags off.
pub fn hits_read(b: Base) -> Base
    ensures { result ≡ hits_read b }
{
    Base {
        hit1: false,
        hit2: false,
        ..b
    }
}
