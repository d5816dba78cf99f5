// Runs a lesson for some beats, asks it to stop, changes a word of memory during the stop where one is given, and resumes it. What is shown is the word that the
// stop held, and that it is the one which runs.
#![tactic(auto)]

mod shown;

use endings::Ending;
use host::Operation;
use loan::Loan;
use registers::Registers;
use runs::{Answer, Ran};
use source::Span;
use std::env::Env;
use std::io;
use std::io::Print;

type Memory = [u16; 32768];

// What the command line asks for: after how many beats the stop, and the word that is changed during it.
#[derive(Clone, Copy)]
struct Stop {
    beats: u32,
    change: Option<Change>,
}

#[derive(Clone, Copy)]
struct Change {
    address: u16,
    word: u16,
}

// The number that is read of an argument. One that cannot be taken is told.
fn number<F: Fn(&[u8]) -> Option<u32>>(
    rt: &impl Env,
    err: &impl Print,
    i: usize,
    read: F,
    wanted: &[u8],
) -> io::Result<Option<u32>>
    requires { F.IsAlwaysCallable read }
{
    let mut argument = [0u8; 64];
    console::value_of(rt, err, i, &mut argument, read, wanted)
}

fn asked_for(rt: &impl Env, err: &impl Print) -> io::Result<Option<Stop>> {
    let wanted = b"BEATS wants a number of beats, 0 to 65535, as 6";
    let Some(beats) = number(rt, err, 1, |s| numerals::decimal(65535, s), wanted)? else {
        return Ok(None);
    };
    if console::argument_count(rt) <= 2 {
        return Ok(Some(Stop {
            beats,
            change: None,
        }));
    }
    let wanted = b"ADDRESS wants an address in octal, 0 to 77777, as 00206";
    let Some(address) = number(rt, err, 2, |s| numerals::octal(32767, s), wanted)? else {
        return Ok(None);
    };
    let wanted = b"WORD wants a word in octal, 0 to 7777, as 0600";
    let Some(word) = number(rt, err, 3, |s| numerals::octal(4095, s), wanted)? else {
        return Ok(None);
    };
    let change = Some(Change {
        address: (address % 32768) as u16,
        word: (word % 4096) as u16,
    });
    Ok(Some(Stop { beats, change }))
}

// An answer that counts the beats from the lesson's first on.
fn counted(answer: Answer, before: u32) -> Answer {
    match answer {
        Answer::Refused(number) => Answer::Refused(number),
        Answer::Ended(ending, beats, points) => {
            Answer::Ended(ending, before % 65536 + beats % 65536, points)
        }
    }
}

// A part of the run, behind those that made so many beats. Its points are written.
fn run_part(
    out: &impl Print,
    r: Registers,
    l: Loan,
    memory: &mut Memory,
    before: u32,
    budget: u32,
) -> io::Result<Ran> {
    // As many points as a part may light.
    let mut points = console::all(0);
    let ran = calls::call(r, l, memory, &mut points, budget);
    shown::write_points(out, &points, calls::numbered(ran.answer).points)?;
    Ok(Ran {
        registers: ran.registers,
        answer: counted(ran.answer, before),
    })
}

// The part that an operation begins: a stop request, or a resume. It may use up what is left of 65,535 beats.
fn go_on(
    out: &impl Print,
    ran: Ran,
    operation: Operation,
    l: Loan,
    memory: &mut Memory,
) -> io::Result<Ran> {
    let before = calls::numbered(ran.answer).beats % 65536;
    let ready = host::operate(ran.registers, operation.into(), 0).registers;
    let next = run_part(out, ready, l, memory, before, 65535 - before)?;
    shown::write_ending(out, next)?;
    Ok(next)
}

// The run of a lesson, stopped after some beats and resumed. It may end before the stop, or instead of it.
fn run(out: &impl Print, stop: Stop, s: Span, memory: &mut Memory) -> io::Result<()> {
    let all = arguments::all_lent(arguments::nothing());
    let l = asked::lent(all, s);
    let first = run_part(out, asked::started(all, s), l, memory, 0, stop.beats)?;
    if !matches!(first.answer, Answer::Ended(Ending::BudgetSpent, _, _)) {
        return shown::write_ending(out, first);
    }
    let stopped = go_on(out, first, Operation::StopRequest, l, memory)?;
    if matches!(stopped.answer, Answer::Ended(Ending::ExternalStop, _, _)) {
        shown::write_held(out, stopped.registers)?;
        if let Some(change) = stop.change {
            memory[(change.address % 32768) as usize] = change.word;
            shown::write_word(out, b"changed ", change.address, change.word)?;
        }
        shown::write_resumed(out)?;
        go_on(out, stopped, Operation::Resume, l, memory)?;
    }
    Ok(())
}

fn start(rt: HostRuntime) -> io::Result<()> {
    let err = rt.stderr();
    let Some(stop) = asked_for(&rt, &err)? else {
        return Ok(());
    };
    let mut input = vec![in rt.alloc(); 0u8; source::LONGEST + 1]?;
    let mut memory = console::all(0);
    let count = console::read_full(&rt, &mut input)?;
    let read = source::read(&input[..count], &mut memory);
    match read.whole() {
        Some(s) if count <= source::LONGEST => run(&rt, stop, s, &mut memory),
        _ => console::write(
            &err,
            b"the lesson cannot be read: ./eveglome run tells what is wrong with it, and in which line.\n",
        ),
    }
}

fn main(rt: HostRuntime) -> io::Result<()> {
    console::ended(start(rt))
}
