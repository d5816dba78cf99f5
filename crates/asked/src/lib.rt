// The run that a command line asks for: what is lent, where the display starts, and the call.
#![tactic(auto)]

ghost use Rattle.std.specs.Prelude.{◌≡◌};
ghost use Rattle.runs.specs.Runs.{leaves};
ghost use Rattle.asked.specs.Asked.{lent, started, run};

use arguments::Asked;
use host::Operation;
use loan::Loan;
use numerals::Bounds;
use registers::Registers;
use runs::Ran;
use source::Span;

// What is lent: the ranges that were asked for, or else the lesson's own words for fetching.
#[tactic(auto, unfolding(crate::specs::Asked::lent))]
pub fn lent(a: Asked, s: Span) -> Loan
    ensures { result ≡ lent a s }
{
    let own = Bounds {
        low: s.low,
        high: s.high,
    };
    let file = a.file.unwrap_or(own);
    Loan {
        filelow: file.low,
        filehigh: file.high,
        listlow: a.list.low,
        listhigh: a.list.high,
    }
}

// The display before the run.
#[tactic(auto, unfolding(crate::specs::Asked::started))]
pub fn started(a: Asked, s: Span) -> Registers
    ensures { result ≡ started a s }
{
    let address = a.address.unwrap_or(s.start);
    let begun = host::operate(
        registers::fresh(),
        Operation::Start.into(),
        address as u32,
    ).registers;
    host::operate(begun, Operation::Pointer.into(), a.pointer as u32).registers
}

// The run.
#[tactic(auto, unfolding(crate::specs::Asked::run))]
pub fn run(a: Asked, s: Span, memory: &mut [u16], points: &mut [u64]) -> Ran
    ensures { leaves result memory.new points.new ≡ run a s memory.old points.old }
{
    calls::call(started(a, s), lent(a, s), memory, points, a.budget)
}
