// What the cases `list` and `read` share: a range of words, a state and a mode, and the numbers of an answer.
use crate::input::{Inlet, NotACase};
use crate::output::Outlet;
use listing::ListingNumbers;

// The words from `low` up to and without `high`, and the state and the mode before the first.
#[derive(Clone, Copy)]
pub(crate) struct Range {
    pub low: u16,
    pub high: u16,
    pub state: u8,
    pub mode: u8,
}

impl Range {
    // Reads a range, where the space before it was read last.
    pub(crate) fn read(input: &mut Inlet) -> Result<Range, NotACase> {
        Ok(Range {
            low: input.number()?,
            high: input.number()?,
            state: input.number()?,
            mode: input.number()?,
        })
    }
}

// Writes the numbers of an answer.
pub(crate) fn write(told: ListingNumbers, out: &mut Outlet) {
    out.number(told.refusal);
    out.number(told.line);
}
