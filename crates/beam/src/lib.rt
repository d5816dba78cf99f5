// Where a beat leaves the beam: the point that it lights, the edge that stops it, the registers as it arrives.
#![tactic(auto)]

ghost use Rattle.std.specs.Prelude.{◌≡◌};
ghost use Rattle.beam.specs.DataWords.{field_x, field_y, lit_at, arrived, still_end};
ghost use Rattle.beam.specs.Setters.{beam_set};

use addresses::DisplayAddress;
use paper::Reached;
use registers::{Base, Motion, Registers};

// What a beat stops the display by: a stop word, an edge, or a control character of the unused form.
#[derive(Clone, Copy)]
pub enum Stop {
    Internal,
    Edge,
    Unused,
}

// What a beat leaves that stores nothing: the registers, the point that it lights, as an entry of the point list, and what it stops the display by.
#[derive(Clone, Copy)]
pub struct Outcome {
    pub registers: Registers,
    pub lit: Option<u64>,
    pub stop: Option<Stop>,
}

fn beam_set(
    b: Base,
    x: u16,
    y: u16,
    datastate: bool,
    horizontal: bool,
    vertical: bool,
    running: bool,
) -> Base
    ensures { result ≡ beam_set b x y datastate horizontal vertical running }
{
    Base {
        x,
        y,
        datastate,
        horizontal,
        vertical,
        running,
        ..b
    }
}

// The two condition bits of each axis's dimension. Two functions, which say the axis by name: an axis as a value would be told apart again in each move.
pub fn field_x(b: Base) -> u16
    ensures { result ≡ field_x b }
{
    words::bits(b.conditions, 6, 7)
}

pub fn field_y(b: Base) -> u16
    ensures { result ≡ field_y b }
{
    words::bits(b.conditions, 4, 5)
}

// The point that a beat lights where the beam arrives, with the address of its command's last word.
#[tactic(auto, unfolding(crate::specs::DataWords::lit_at, words::specs::Words::pick))]
pub fn lit_at(
    b: Base,
    lastword: DisplayAddress,
    x: u16,
    y: u16,
    asked: bool,
    violated: bool,
) -> Option<u64>
    ensures { result ≡ lit_at b lastword x y asked violated }
{
    let all = words::bit(b.conditions, 8);
    let screen = paper::sector_zero(x, y);
    if (asked | all) & screen & !violated {
        Some(paper::point(x, y, b.intensity, b.blink, lastword.number()))
    } else {
        None
    }
}

// The beam where a beat took it: point, graphplot and move beats end here.
#[tactic(auto, unfolding(crate::specs::DataWords::arrived))]
pub fn arrived(
    b: Base,
    motion: Motion,
    lastword: DisplayAddress,
    x: Reached,
    y: Reached,
    asked: bool,
    escape: bool,
) -> Outcome
    ensures { result ≡ arrived b motion lastword x y asked escape }
{
    let violated = x.violated | y.violated;
    let edge = violated & !words::bit(b.conditions, 9);
    let base = beam_set(
        b,
        x.value,
        y.value,
        b.datastate & !escape,
        b.horizontal | edge & x.violated,
        b.vertical | edge & y.violated,
        b.running & !edge,
    );
    let lit = lit_at(b, lastword, x.value, y.value, asked, violated);
    let stop = words::pick(edge, Some(Stop::Edge), None);
    let registers = Registers { base, motion };
    Outcome {
        registers,
        lit,
        stop,
    }
}

// The last, still beat of a vector continue.
#[tactic(auto, unfolding(crate::specs::DataWords::still_end))]
pub fn still_end(b: Base, escape: bool) -> Outcome
    ensures { result ≡ still_end b escape }
{
    let base = beam_set(
        b,
        b.x,
        b.y,
        b.datastate & !escape,
        b.horizontal,
        b.vertical,
        b.running,
    );
    let registers = Registers {
        base,
        motion: Motion::Nothing,
    };
    Outcome {
        registers,
        lit: None,
        stop: None,
    }
}
