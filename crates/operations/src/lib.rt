// What the host operations 1 to 6 and 30 do to the registers other than the motion. Those from 7 to 24 are in inputs.
#![tactic(auto)]

ghost use Rattle.std.specs.Prelude.{◌≡◌};
ghost use Rattle.operations.specs.HostOperations.{stops_off, started, pointed, conditioned, resumed, resume, cleared, requested, generated};

use addresses::{DisplayAddress, PushdownPointer};
use registers::Base;

// The flags that stop the display off.
fn stops_off(b: Base) -> Base
    ensures { result ≡ stops_off b }
{
    Base {
        internal: false,
        external: false,
        vertical: false,
        horizontal: false,
        penflag: false,
        ..b
    }
}

// 1: start at an address.
pub fn started(b: Base, address: DisplayAddress) -> Base
    ensures { result ≡ started b address }
{
    Base {
        address,
        mode: 0,
        request: false,
        hold: false,
        datastate: false,
        running: true,
        held: None,
        ..stops_off(b)
    }
}

// 2: set the pushdown pointer.
pub fn pointed(b: Base, pointer: PushdownPointer) -> Base
    ensures { result ≡ pointed b pointer }
{
    Base { pointer, ..b }
}

// 3: set the initial-condition bits.
pub fn conditioned(b: Base, conditions: u16) -> Base
    ensures { result ≡ conditioned b conditions }
{
    Base { conditions, ..b }
}

// A stopped display runs again, with pen enable and hold as given.
fn resumed(b: Base, pen: bool, hold: bool) -> Base
    ensures { result ≡ resumed b pen hold }
{
    Base {
        running: true,
        pen,
        hold,
        ..stops_off(b)
    }
}

// 4: resume, if stopped.
#[tactic(auto, unfolding(crate::specs::HostOperations::resume, words::specs::Words::pick))]
pub fn resume(b: Base) -> Base
    ensures { result ≡ resume b }
{
    if b.running {
        b
    } else {
        let off = b.penflag & words::bit(b.conditions, 2);
        let held = off & !words::bit(b.conditions, 3);
        resumed(b, b.pen & !off, b.hold | held)
    }
}

// 5: clear.
#[tactic(auto, unfolding(crate::specs::HostOperations::cleared))]
pub fn cleared(b: Base) -> Base
    ensures { result ≡ cleared b }
{
    let address = DisplayAddress::in_field(b.address.break_field(), 0);
    Base {
        running: false,
        ..started(b, address)
    }
}

// 6: ask for an external stop; a stopped display takes no request.
pub fn requested(b: Base) -> Base
    ensures { result ≡ requested b }
{
    Base {
        request: b.request | b.running,
        ..b
    }
}

// 30: set the character generator's case, code size and starting address register.
pub fn generated(b: Base, word: u16) -> Base
    ensures { result ≡ generated b word }
{
    Base {
        upper: words::bit(word, 3),
        seven: words::bit(word, 4),
        starting: words::bits(word, 6, 11) as u8,
        ..b
    }
}
