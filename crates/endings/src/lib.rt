// How a run ends: what a turn's failure, rest or stop makes of it, and this paper's numbers for each ending.
#![tactic(auto)]

ghost use Rattle.std.specs.Prelude.{◌≡◌};
ghost use Rattle.endings.specs.Endings.{rested, rest_ending, halted, numbers, why_numbers, ending_numbers, at_fence};

use beam::Stop;
use registers::{Base, Registers};
use touches::{Resting, Why};

// How a run ended. What could not be made says why, with the address of the touch.
#[derive(Clone, Copy)]
pub enum Ending {
    NotRunning,
    BudgetSpent,
    InternalStop,
    ExternalStop,
    EdgeStop,
    UnusableMode,
    Failed(Why),
}

// 01's number of an ending, which the C interface tells, and the address of the word that the fence stopped; 0 where it stopped none.
#[derive(Clone, Copy)]
pub struct EndingNumbers {
    pub number: u8,
    pub address: u16,
}

// The registers of a display that rests.
#[tactic(auto, unfolding(crate::specs::Endings::rested))]
pub fn rested(r: Registers, resting: Resting) -> Registers
    ensures { result ≡ rested r resting }
{
    let b = r.base;
    let motion = r.motion;
    match resting {
        Resting::External(word) => {
            let base = Base {
                request: false,
                external: true,
                running: false,
                held: Some(word),
                ..b
            };
            Registers { base, motion }
        }
        Resting::Unusable => {
            let base = Base {
                running: false,
                ..b
            };
            Registers { base, motion }
        }
    }
}

#[tactic(auto, unfolding(crate::specs::Endings::rest_ending))]
pub fn rest_ending(resting: Resting) -> Ending
    ensures { result ≡ rest_ending resting }
{
    match resting {
        Resting::External(_) => Ending::ExternalStop,
        Resting::Unusable => Ending::UnusableMode,
    }
}

// A beat that stops the display ends the run.
#[tactic(auto, unfolding(crate::specs::Endings::halted))]
pub fn halted(stop: Option<Stop>) -> Option<Ending>
    ensures { result ≡ halted stop }
{
    match stop {
        None => None,
        Some(Stop::Internal) => Some(Ending::InternalStop),
        Some(Stop::Edge) => Some(Ending::EdgeStop),
        Some(Stop::Unused) => Some(Ending::UnusableMode),
    }
}

fn numbers(number: u8, address: u16) -> EndingNumbers
    ensures { result ≡ numbers number address }
{
    EndingNumbers { number, address }
}

#[tactic(auto, unfolding(crate::specs::Endings::why_numbers))]
fn why_numbers(why: Why) -> EndingNumbers
    ensures { result ≡ why_numbers why }
{
    match why {
        Why::Fetch(a) => numbers(16, a.number()),
        Why::Store(a) => numbers(19, a.number()),
        Why::Wide(_) => numbers(17, 0),
        Why::Full => numbers(18, 0),
    }
}

#[tactic(auto, unfolding(crate::specs::Endings::ending_numbers))]
pub fn ending_numbers(ending: Ending) -> EndingNumbers
    ensures { result ≡ ending_numbers ending }
{
    match ending {
        Ending::NotRunning => numbers(10, 0),
        Ending::BudgetSpent => numbers(11, 0),
        Ending::InternalStop => numbers(12, 0),
        Ending::ExternalStop => numbers(13, 0),
        Ending::EdgeStop => numbers(14, 0),
        Ending::UnusableMode => numbers(15, 0),
        Ending::Failed(why) => why_numbers(why),
    }
}

// Whether a run that ended with this number ended at the fence.
pub fn at_fence(number: u8) -> bool
    ensures { result ≡ at_fence number }
{
    (number == 16) | (number == 19)
}
