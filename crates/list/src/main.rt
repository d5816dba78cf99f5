// Lists a lesson by the manual's mnemonics; with --back, makes a lesson of a listing again.
#![tactic(auto)]

mod asked;
mod back;
mod faults;
mod stretches;

use asked::Start;
use numerals::Bounds;
use std::alloc::Alloc;
use std::env::Env;
use std::io;
use std::io::{Input, Print};

// A listing may have this many bytes and not one more: that of all of memory has fewer.
const LISTING: usize = 1500000;

type Memory = [u16; 32768];

// Lists a lesson: the range that is asked for, or else its stretches.
fn list(
    rt: &(impl Alloc + Env + Print),
    err: &impl Print,
    range: Bounds,
    start: Start,
    lesson: &[u8],
) -> io::Result<()> {
    let mut memory = console::all(0);
    let read = source::read(lesson, &mut memory);
    if read.whole().is_none() {
        return faults::tell_lesson(err, lesson, read);
    }
    let mut text = vec![in rt.alloc(); 0u8; LISTING]?;
    if console::argument_count(rt) == 1 {
        stretches::write(rt, lesson, &memory, &mut text)
    } else {
        stretches::write_range(rt, range, start, &memory, &mut text)
    }
}

// Reads a lesson and lists it.
fn start_list(rt: &(impl Alloc + Env + Input + Print), err: &impl Print) -> io::Result<()> {
    let Some(range) = asked::range(rt, err)? else {
        return Ok(());
    };
    let Some(start) = asked::starting(rt, err, 3, 4)? else {
        return Ok(());
    };
    // One byte more shows that there are too many.
    let mut lesson = vec![in rt.alloc(); 0u8; source::LONGEST + 1]?;
    let count = console::read_full(rt, &mut lesson)?;
    if count <= source::LONGEST {
        list(rt, err, range, start, &lesson[..count])
    } else {
        console::write(
            err,
            b"the lesson is longer than 262144 bytes: take comments out of it.\n",
        )
    }
}

// Reads a listing and makes a lesson of it. Not put in line: the memory would lie on the stack beside that of a lesson that is listed.
#[inline(never)]
fn start_unlist(rt: &(impl Alloc + Env + Input + Print), err: &impl Print) -> io::Result<()> {
    let Some(start) = asked::starting(rt, err, 2, 3)? else {
        return Ok(());
    };
    let mut text = vec![in rt.alloc(); 0u8; LISTING + 1]?;
    let count = console::read_full(rt, &mut text)?;
    if count <= LISTING {
        back::write(rt, err, start, &text[..count], &mut console::all(0))
    } else {
        console::write(
            err,
            b"the listing is longer than 1500000 bytes, as none of a lesson is: give one that ./eveglome list has written.\n",
        )
    }
}

fn start(rt: HostRuntime) -> io::Result<()> {
    if asked::is_back(&rt) {
        start_unlist(&rt, &rt.stderr())
    } else {
        start_list(&rt, &rt.stderr())
    }
}

fn main(rt: HostRuntime) -> io::Result<()> {
    console::ended(start(rt))
}
