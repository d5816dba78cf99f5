// Control words, one after another: the command beats of a display in control state that has no motion and no stop request. Between two of them a
// run's other tests decide nothing, so they are made in a loop that carries the registers without a motion.
#![tactic(auto)]

ghost use Rattle.std.specs.Prelude.{◌≡◌};
ghost use Rattle.touches.specs.Touches.{walk};
ghost use Rattle.touches.specs.Said.{said};
ghost use Rattle.control_sequence.specs.Sequence.{next_word, obey, leaves};

use endings::Ending;
use loan::Loan;
use registers::Base;
use touches::{Lent, Turn, Why};

// What a sequence leaves: the registers, how many beats of its limit it did not make, and how the run ends, if it does.
#[derive(Clone, Copy)]
pub struct Obeyed {
    pub base: Base,
    pub left: u32,
    pub halt: Option<Ending>,
}

// The beat of the next control word.
fn next_word(base: Base, lent: Lent<'_>) -> Result<Turn, Why>
    ensures { said result ≡ walk lent.entry.loan lent.entry.memory.now (next_word base) }
{
    let word = lent.taken(base)?;
    control_beats::control_beat(control_beats::ready(base), word, lent)
}

// The control words from the display address on, at most `limit` of them, until the display is in data state, is asked to stop or
// stops, or a word can't be obeyed.
pub fn obey(start: Base, l: Loan, memory: &mut [u16], limit: u32) -> Obeyed
    ensures { leaves result memory.new ≡ obey limit l start memory.old }
{
    let mut base = start;
    let mut left = limit;
    // No `for` over the limit: the registers end it, too, and what is left of the limit is answered.
    while (0 < left) & !base.datastate & !base.request {
        let lent = Lent {
            loan: l,
            memory: &memory[..],
        };
        let turn = match next_word(base, lent) {
            Ok(turn) => turn,
            Err(why) => {
                return Obeyed {
                    base,
                    left,
                    halt: Some(Ending::Failed(why)),
                };
            }
        };
        let stop = match turn {
            Turn::Rests(_) => {
                return Obeyed {
                    base,
                    left,
                    halt: None,
                };
            }
            Turn::Storeless(outcome) => {
                base = outcome.registers.base;
                outcome.stop
            }
            Turn::Does(act) => {
                touches::store(act.stores, memory);
                base = act.registers.base;
                act.stop
            }
        };
        left -= 1;
        if let Some(ending) = endings::halted(stop) {
            return Obeyed {
                base,
                left,
                halt: Some(ending),
            };
        }
    }
    Obeyed {
        base,
        left,
        halt: None,
    }
}
