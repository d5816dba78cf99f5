// Replay: reads cases from standard input, a line each, calls the proved library with each, and writes an answer line a case.
#![tactic(auto)]

mod input;
mod list;
mod operation;
mod output;
mod range;
mod read;
mod row;
mod run;
mod tables;

use input::{Inlet, NotACase};
use output::Outlet;
use std::io;
use tables::Tables;

// Input and output go through a block each.
const SIZE: usize = 4096;

type Block = [u8; SIZE];

// What each case is read from, lends and is answered on.
#[derive(Drop)]
struct Replay {
    input: Inlet,
    tables: Tables,
    out: Outlet,
}

impl Replay {
    // Answers the case whose first byte was read last. Of a line that is no case nothing is answered.
    fn answer(&mut self) -> Result<(), NotACase> {
        match self.input.byte {
            Some(b'o') => operation::answer(self),
            Some(b'l') => list::answer(self),
            Some(b'r') => match self.input.next() {
                Some(b'u') => run::answer(self),
                Some(b'e') => read::answer(self),
                _ => Err(NotACase),
            },
            _ => Err(NotACase),
        }
    }

    // Answers a line that is no case.
    fn error(&mut self, line: u64) {
        self.input.skip();
        self.out.text(b"error");
        self.out.number(line);
        self.out.put(b'\n');
    }

    // Answers every line, or those up to a write that failed.
    fn lines(&mut self) {
        // No input has so many lines; a `loop` would need a proof that it ends.
        for line in 1..=u64::MAX {
            if self.input.next().is_none() || self.out.failed.is_some() {
                break;
            }
            if self.answer().is_err() {
                self.error(line);
            }
        }
    }
}

// Answers standard input on standard output.
fn answer_all(rt: HostRuntime) -> io::Result<()> {
    let mut replay = Replay {
        input: Inlet::new(rt.stdin()),
        tables: Tables::new(),
        out: Outlet::new(rt.stdout()),
    };
    replay.lines();
    replay.out.flush();
    match replay.out.failed.or(replay.input.failed) {
        Some(error) => Err(error),
        None => Ok(()),
    }
}

fn main(rt: HostRuntime) -> io::Result<()> {
    console::ended(answer_all(rt))
}
