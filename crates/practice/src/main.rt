// The practice program: reads a lesson from standard input, and writes the points that a display lights with it and how its run ends.
#![tactic(auto)]

use std::io;

fn answer(rt: HostRuntime) -> io::Result<()> {
    // One byte more than 4,096 lines have: what comes behind changes nothing of the answer (`lesson::enough`), and is not read.
    let mut input = vec![in rt.alloc(); 0u8; 45057]?;
    let mut text = console::all(0);
    let count = console::read_full(&rt, &mut input)?;
    let length = lesson::practice(&input[..count], &mut text);
    console::write(&rt, &text[..length])
}

fn main(rt: HostRuntime) -> io::Result<()> {
    console::ended(answer(rt))
}
