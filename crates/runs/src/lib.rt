// The run of an accepted call on a running display: turn by turn, with beats that need no turn of their own made ahead of one.
#![tactic(auto)]

ghost use Rattle.std.specs.Prelude.{◌≡◌, ◌+◌, ◌≤◌, length};
ghost use Rattle.registers.specs.Good.{Good};
ghost use Rattle.runs.specs.declared.Answer.TheVariants.{Ended};
ghost use Rattle.runs.specs.Ahead.{make_ahead, leaves as ahead_leaves};
ghost use Rattle.runs.specs.Runs.{run, left, leaves};

use endings::Ending;
use loan::Loan;
use move_sequence::PointList;
use registers::{Motion, Registers};
use touches::{Lent, Turn};

// A refusal's number, or the ending with the beats made and the points lit. An enum of its own and no Result: 01 names it, and an ending is no error.
#[derive(Clone, Copy)]
pub enum Answer {
    Refused(u8),
    Ended(Ending, u32, usize),
}

#[derive(Clone, Copy)]
pub struct Ran {
    pub registers: Registers,
    pub answer: Answer,
}

// A run that ends: its registers, how it ends, its beats and its points.
fn ended(registers: Registers, ending: Ending, beats: u32, place: usize) -> Ran
    ensures { result ≡ record { registers = registers; answer = Ended ending beats place } }
{
    Ran {
        registers,
        answer: Answer::Ended(ending, beats, place),
    }
}

// What is made ahead of a turn: the registers, what is left of the budget, and how the run ends, if it does.
#[derive(Clone, Copy)]
struct Ahead {
    pub registers: Registers,
    pub left: u32,
    pub halt: Option<Ending>,
}

// The beats that can be made in a loop of their own: control words as long as there are any, or the plain moves of a line or a byte. One beat at least is
// left to the turn behind moves, so that it can be made.
fn make_ahead(
    r: Registers,
    l: Loan,
    memory: &mut [u16],
    points: &mut PointList<'_>,
    limit: u32,
) -> Ahead
    requires { Good r × (points.old.place ≤ length points.old.list.now) × (1 ≤ limit) }
    ensures same { points.new.list.ghost_name ≡ points.old.list.ghost_name }
    ensures left { ahead_leaves result memory.new points.new.place points.new.list.now ≡ make_ahead limit l r memory.old points.old.list.now points.old.place }
{
    let motion = r.motion;
    let b = r.base;
    match motion {
        Motion::Nothing => {
            let obeyed = control_sequence::obey(b, l, memory, limit);
            let registers = Registers {
                base: obeyed.base,
                motion: Motion::Nothing,
            };
            Ahead {
                registers,
                left: obeyed.left,
                halt: obeyed.halt,
            }
        }
        Motion::Line(lastword, line) => {
            let moves = move_sequence::line_moves(b, lastword, line, points, limit - 1);
            Ahead {
                registers: moves.registers,
                left: moves.left + 1,
                halt: None,
            }
        }
        Motion::Bytes(lastword, bytes) => {
            let moves = move_sequence::byte_moves(b, lastword, bytes, points, limit - 1);
            Ahead {
                registers: moves.registers,
                left: moves.left + 1,
                halt: None,
            }
        }
        Motion::Character(_) => Ahead {
            registers: r,
            left: limit,
            halt: None,
        },
    }
}

// The run over a point list that nothing was put into yet.
fn turns_of(
    r: Registers,
    l: Loan,
    memory: &mut [u16],
    points: &mut PointList<'_>,
    budget: u32,
) -> Ran
    requires { Good r × (points.old.place ≡ 0) }
    ensures same { points.new.list.ghost_name ≡ points.old.list.ghost_name }
    ensures left { leaves result memory.new points.new.list.now ≡ left (run budget l (length points.old.list.now) r memory.old) points.old.list.now }
{
    let mut current = r;
    let mut beats: u32 = 0;
    // No `for` over the budget: how many beats a pass takes is known only behind it.
    while beats < budget {
        let before = make_ahead(current, l, memory, points, budget - beats);
        beats = budget - before.left;
        current = before.registers;
        if let Some(ending) = before.halt {
            return ended(current, ending, beats, points.place);
        }
        if budget <= beats {
            return ended(current, Ending::BudgetSpent, beats, points.place);
        }
        let lent = Lent {
            loan: l,
            memory: &memory[..],
        };
        let turn = match turns::turn(current, lent, points.room()) {
            Ok(turn) => turn,
            Err(why) => return ended(current, Ending::Failed(why), beats, points.place),
        };
        let stop = match turn {
            Turn::Rests(resting) => {
                let registers = endings::rested(current, resting);
                let rest = endings::rest_ending(resting);
                return ended(registers, rest, beats, points.place);
            }
            Turn::Storeless(outcome) => {
                points.put_with_room(outcome.lit);
                current = outcome.registers;
                outcome.stop
            }
            Turn::Does(act) => {
                touches::store(act.stores, memory);
                points.put_with_room(act.lit);
                current = act.registers;
                act.stop
            }
        };
        beats += 1;
        if let Some(end) = endings::halted(stop) {
            return ended(current, end, beats, points.place);
        }
    }
    ended(current, Ending::BudgetSpent, beats, points.place)
}

// The run of an accepted call on a running display. That the registers are in range is asked and no type's: a type would be taken apart and made again in every
// turn, and the loops ahead of a turn take the registers in parts.
pub fn run(r: Registers, l: Loan, memory: &mut [u16], points: &mut [u64], budget: u32) -> Ran
    requires { Good r }
    ensures { leaves result memory.new points.new ≡ left (run budget l (length points.old) r memory.old) points.old }
{
    let mut list = PointList::new(points);
    turns_of(r, l, memory, &mut list, budget)
}
