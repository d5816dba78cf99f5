// What a case lends, a memory, a point list and a text list: made ready before the call, and written after it.
ghost use Rattle.std.specs.Prelude.{◌≤◌};
ghost use Rattle.replay.specs.declared.tables.TheConstants.{LARGEST};

use crate::input::{Inlet, NotACase};
use crate::output::Outlet;

// The words of the largest memory that a case can lend, one word above the machine's.
const LARGEST: usize = 32769;

type Words = [u16; LARGEST];

// How many words are looked at together.
const BLOCK: usize = 64;

// Whether two lists differ in a place that both have.
fn differ(new: &[u16], old: &[u16]) -> bool {
    new.iter()
        .zip(old)
        .fold(0, |differing, (new, old)| differing | (new ^ old))
        != 0
}

// The longest point list.
pub(crate) const MOST: usize = 65536;

type Points = [u64; MOST];

// The longest text list: a listing of all of memory has at most 1,409,024 bytes.
pub(crate) const LONGEST: usize = 1500000;

pub(crate) type Text = [u8; LONGEST];

// A memory, of which a case lends the first words, and what they were before the call, by which its changes are told. They are two lists, since a call is lent one.
#[derive(Drop)]
pub(crate) struct Memory {
    // Who calls cuts these to the length: a method that hands out a part of a struct with a ghost field, to be written, has no proof.
    pub words: Words,
    before: Words,
    pub length: usize,
    ghost within: { length ≤ LARGEST },
}

impl Memory {
    fn new() -> Memory {
        Memory {
            words: console::all(0),
            before: console::all(0),
            length: 0,
        }
    }

    // Reads an address below the memory's length, and its word.
    fn pair(&mut self, input: &mut Inlet) -> Result<(), NotACase> {
        let address = usize::from(input.number::<u16>()?);
        let word = input.number()?;
        if address < self.length {
            self.words[address] = word;
            self.before[address] = word;
            Ok(())
        } else {
            Err(NotACase)
        }
    }

    // Reads a memory of one word everywhere but for the pairs, into both lists.
    pub(crate) fn read(&mut self, input: &mut Inlet) -> Result<(), NotACase> {
        self.length = input.length(LARGEST)?;
        let word = input.number()?;
        let pairs: u32 = input.number()?;
        self.words.fill(word);
        self.before.fill(word);
        for _ in 0..pairs {
            self.pair(input)?;
        }
        Ok(())
    }

    // Writes those words that the call changed which lie in a block: from a place on, as many as it has and the memory was lent.
    fn write_block(&self, low: usize, out: &mut Outlet)
        requires { low ≤ LARGEST }
    {
        for address in low..(low + BLOCK).min(self.length) {
            let new = self.words[address];
            if new != self.before[address] {
                out.number(address as u64);
                out.number(new);
            }
        }
    }

    // Writes the words that the call changed, of those that it was lent. Most blocks have none: that is seen of a block at once, in less time than of each word.
    pub(crate) fn write_changes(&self, out: &mut Outlet) {
        out.text(b" M");
        for block in 0..=self.length / BLOCK {
            let low = BLOCK * block;
            let high = (low + BLOCK).min(self.length);
            if differ(&self.words[low..high], &self.before[low..high]) {
                self.write_block(low, out);
            }
        }
    }
}

#[derive(Drop)]
pub(crate) struct Tables {
    pub memory: Memory,
    pub points: Points,
    pub text: Text,
}

impl Tables {
    pub(crate) fn new() -> Tables {
        Tables {
            memory: Memory::new(),
            points: console::all(0),
            text: console::all(0),
        }
    }
}

// Writes points.
pub(crate) fn write_points(points: &[u64], out: &mut Outlet) {
    out.text(b" P");
    for &point in points {
        out.number(point);
    }
}

// Writes a text, with | for each newline; for none stands -.
pub(crate) fn write_text(text: &[u8], out: &mut Outlet) {
    out.put(b' ');
    if text.is_empty() {
        out.put(b'-');
    }
    for &byte in text {
        out.put(if byte == b'\n' { b'|' } else { byte });
    }
}
