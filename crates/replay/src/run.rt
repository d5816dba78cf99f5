// The case `run`: registers, a budget, a loan, room for points, and a memory.
use crate::input::{Inlet, NotACase};
use crate::output::Outlet;
use crate::row::Row;
use crate::tables::{MOST, Memory};
use crate::{Replay, tables};
use loan::Loan;
use runs::Answer;

// A case but for its memory and its point list.
#[derive(Clone, Copy)]
struct Case {
    given: Row,
    budget: u32,
    loan: Loan,
}

// Reads a loan, where the space before it was read last.
fn read_loan(input: &mut Inlet) -> Result<Loan, NotACase> {
    Ok(Loan {
        filelow: input.number()?,
        filehigh: input.number()?,
        listlow: input.number()?,
        listhigh: input.number()?,
    })
}

impl Case {
    // Reads a case, where the space before it was read last.
    fn read(input: &mut Inlet) -> Result<Case, NotACase> {
        Ok(Case {
            given: Row::read(input)?,
            budget: input.number()?,
            loan: read_loan(input)?,
        })
    }

    // Runs, and writes the answer.
    fn play(&self, memory: &mut Memory, points: &mut [u64], out: &mut Outlet) {
        points.fill(0);
        let length = memory.length;
        let words = &mut memory.words[..];
        let ran = calls::call(
            self.given.into(),
            self.loan,
            &mut words[..length],
            points,
            self.budget,
        );
        let left = if matches!(ran.answer, Answer::Refused(_)) {
            self.given
        } else {
            ran.registers.into()
        };
        let told = calls::numbered(ran.answer);
        out.text(b"run");
        out.number(told.ending);
        out.number(told.beats);
        out.number(told.points as u64);
        out.number(told.address);
        left.write(out);
        let count = told.points.min(points.len());
        tables::write_points(&points[..count], out);
        memory.write_changes(out);
        out.put(b'\n');
    }
}

// Reads the rest of the case, behind its second byte, and answers it.
pub(crate) fn answer(replay: &mut Replay) -> Result<(), NotACase> {
    let Replay { input, tables, out } = replay;
    input.expect(b"n ")?;
    let case = Case::read(input)?;
    let room = input.length(MOST)?;
    tables.memory.read(input)?;
    input.end_of_line()?;
    let points = &mut tables.points[..];
    case.play(&mut tables.memory, &mut points[..room], out);
    Ok(())
}
