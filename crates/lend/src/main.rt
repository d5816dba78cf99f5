// Lends a lesson the words that the command line asks for, runs it, and says why it stopped. With --hint it explains what the practice program answers.
#![tactic(auto)]

mod faults;
mod shown;
mod spots;
mod traces;

use arguments::Asked;
use endings::Ending;
use runs::{Answer, Ran};
use source::Span;
use std::env::Env;
use std::io;
use std::io::Print;
use text::Text;

type Memory = [u16; 32768];

// Takes the arguments. The first that cannot be taken is told, or the option whose value does not come.
fn asked(rt: &impl Env, err: &impl Print) -> io::Result<Option<Asked>> {
    let mut a = arguments::nothing();
    for i in 1..console::argument_count(rt) {
        let mut list = [0u8; 256];
        let argument = console::argument(rt, i, &mut list);
        let Some(next) = arguments::taken(a, argument) else {
            faults::tell(err, a.awaited, argument)?;
            return Ok(None);
        };
        a = next;
    }
    if let Some(awaited) = a.awaited {
        faults::tell_missing(err, awaited)?;
        return Ok(None);
    }
    Ok(Some(a))
}

// How a run ended, in words.
fn write_sentence(out: &impl Print, ran: Ran) -> io::Result<()> {
    let mut line = [0u8; 128];
    let mut text = Text::new(&mut line);
    meanings::put_sentence(ran.answer, ran.registers, &mut text);
    console::write(out, text.as_bytes())
}

// Makes the run, and writes its answer: its points, its ending in words, and what else was asked for.
fn answer(
    out: &impl Print,
    a: Asked,
    s: Span,
    memory: &mut Memory,
    points: &mut [u64],
) -> io::Result<()> {
    let before = *memory;
    let ran = asked::run(a, s, memory, points);
    shown::write_points(out, points, calls::numbered(ran.answer).points)?;
    write_sentence(out, ran)?;
    if a.shown.registers {
        shown::write_registers(out, ran.registers)?;
    }
    if a.shown.changed {
        shown::write_changed(out, memory, &before)?;
    }
    Ok(())
}

// Lends of the point list as much as was asked for.
fn lend(out: &impl Print, a: Asked, s: Span, memory: &mut Memory) -> io::Result<()> {
    let mut points: [u64; 65536] = console::all(0);
    let room = points.len().min(a.room as usize);
    answer(out, a, s, memory, &mut points[..room])
}

// Runs a lesson as people write it.
fn run(out: &impl Print, err: &impl Print, a: Asked, input: &[u8]) -> io::Result<()> {
    let mut memory = console::all(0);
    let read = source::read(input, &mut memory);
    let Some(s) = read.whole() else {
        return spots::tell_source(err, input, read.span.is_some());
    };
    if a.shown.trace {
        let mut traced = memory;
        traces::write(out, a, s, &mut traced)?;
    }
    lend(out, a, s, &mut memory)
}

// The practice program's run: all of memory lent, and room for 1,024 points.
fn practiced(a: Asked, input: &[u8], memory: &mut Memory) -> Ran {
    // Where all is lent, only the start of the words is asked for.
    let s = Span {
        start: lines::start(input),
        low: 0,
        high: 0,
    };
    let mut points: [u64; 1024] = console::all(0);
    asked::run(arguments::all_lent(a), s, memory, &mut points)
}

// Explains what the practice program answers to a lesson: a bad line, or an ending that is no stop word.
fn hint(out: &impl Print, a: Asked, input: &[u8]) -> io::Result<()> {
    let mut memory = console::all(0);
    let count = lines::read(input, &mut memory);
    if !spots::good(input, count) {
        return spots::tell_lines(out, input, count);
    }
    let ran = practiced(a, input, &mut memory);
    if !matches!(ran.answer, Answer::Ended(Ending::InternalStop, _, _)) {
        console::write(out, b"hint: ")?;
        write_sentence(out, ran)?;
    }
    Ok(())
}

fn start(rt: HostRuntime) -> io::Result<()> {
    let err = rt.stderr();
    let Some(a) = asked(&rt, &err)? else {
        return Ok(());
    };
    let mut input = vec![in rt.alloc(); 0u8; source::LONGEST + 1]?;
    let count = console::read_full(&rt, &mut input)?;
    if a.shown.hint {
        hint(&rt, a, &input[..count])
    } else if count <= source::LONGEST {
        run(&rt, &err, a, &input[..count])
    } else {
        faults::tell_long(&err)
    }
}

fn main(rt: HostRuntime) -> io::Result<()> {
    console::ended(start(rt))
}
