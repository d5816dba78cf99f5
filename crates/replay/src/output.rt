// Standard output, written in blocks.
ghost use Rattle.std.specs.Prelude.{◌<◌, ◌≤◌};
ghost use Rattle.replay.specs.declared.TheConstants.{SIZE};

use crate::{Block, SIZE};
use std::io;
use std::io::Stdout;

// Standard output, and the block that waits to be written.
#[derive(Drop)]
pub(crate) struct Outlet {
    stdout: Stdout,
    block: Block,
    // How much of the block waits.
    place: usize,
    // Why a write failed, if one did.
    pub failed: Option<io::Error>,
    ghost room: { place < SIZE },
}

impl Outlet {
    // Standard output before anything is written.
    pub(crate) fn new(stdout: Stdout) -> Outlet {
        Outlet {
            stdout,
            block: console::all(0),
            place: 0,
            failed: None,
        }
    }

    // Writes the first bytes of the block. Behind a write that failed nothing more is written.
    fn write(&mut self, count: usize)
        requires { count ≤ SIZE }
    {
        if self.failed.is_none() {
            self.failed = console::write(&self.stdout, &self.block[..count]).err();
        }
        self.place = 0;
    }

    // Writes what waits.
    pub(crate) fn flush(&mut self) {
        self.write(self.place);
    }

    // Puts a byte, and writes the block that it fills.
    pub(crate) fn put(&mut self, byte: u8) {
        self.block[self.place] = byte;
        if self.place == SIZE - 1 {
            self.write(SIZE);
        } else {
            self.place += 1;
        }
    }

    // Puts bytes as they are.
    pub(crate) fn text(&mut self, bytes: &[u8]) {
        for &byte in bytes {
            self.put(byte);
        }
    }

    // Puts a space and a number.
    pub(crate) fn number<T: Into<u64>>(&mut self, value: T) {
        let mut digits = [0u8; 20];
        let count = console::digits(value.into(), &mut digits);
        self.put(b' ');
        self.text(&digits[..count]);
    }
}
