// Standard input, read in blocks and taken apart byte by byte: no line is ever held, so a line may have any length.
ghost use Rattle.std.specs.Prelude.{◌≤◌, IfOk};
ghost use Rattle.replay.specs.declared.TheConstants.{SIZE};

use crate::tables::{LONGEST, Text};
use crate::{Block, SIZE};
use std::io;
use std::io::Stdin;

// A line is no case. Nothing more is read of it but by `skip`, so that its newline is not passed unseen.
#[derive(Clone, Copy, Debug, PartialEq, Eq)]
pub(crate) struct NotACase;

// Standard input, and the block that it is read in.
#[derive(Drop)]
pub(crate) struct Inlet {
    stdin: Stdin,
    block: Block,
    // Where the reading stands in the block, and how much of the block is filled.
    at: usize,
    end: usize,
    // The byte that was read last: a newline before the first, and none once the input is over.
    pub byte: Option<u8>,
    // Why a read failed, if one did.
    pub failed: Option<io::Error>,
    ghost standing: { at ≤ end },
    ghost filled: { end ≤ SIZE },
}

// A byte of a text, in which | stands for a newline.
fn unmarked(byte: u8) -> u8 {
    if byte == b'|' { b'\n' } else { byte }
}

impl Inlet {
    // Standard input before anything is read.
    pub(crate) fn new(stdin: Stdin) -> Inlet {
        Inlet {
            stdin,
            block: console::all(0),
            at: 0,
            end: 0,
            byte: Some(b'\n'),
            failed: None,
        }
    }

    // Reads a block. A read that fails ends the input.
    fn fill(&mut self) {
        let got = console::read_some(&self.stdin, &mut self.block);
        self.at = 0;
        self.end = 0;
        match got {
            Ok(count) => self.end = count,
            Err(error) => self.failed = Some(error),
        }
    }

    // Reads the next byte. The end of the input stays the end.
    pub(crate) fn next(&mut self) -> Option<u8> {
        if self.at == self.end && self.byte.is_some() {
            self.fill();
        }
        if self.at < self.end {
            self.byte = Some(self.block[self.at]);
            self.at += 1;
        } else {
            self.byte = None;
        }
        self.byte
    }

    // The byte that was read last has to be this one.
    fn been(&self, byte: u8) -> Result<(), NotACase> {
        if self.byte == Some(byte) {
            Ok(())
        } else {
            Err(NotACase)
        }
    }

    // Reads the bytes that have to come next.
    pub(crate) fn expect(&mut self, bytes: &[u8]) -> Result<(), NotACase> {
        for &byte in bytes {
            self.next();
            self.been(byte)?;
        }
        Ok(())
    }

    // A line's last newline was read: only now is the line a case.
    pub(crate) fn end_of_line(&self) -> Result<(), NotACase> {
        self.been(b'\n')
    }

    // Reads on to the line's newline, or to the end of the input.
    pub(crate) fn skip(&mut self) {
        // No line has so many bytes; a `loop` would need a proof that the input ends.
        for _ in 0..u64::MAX {
            if self.byte == Some(b'\n') || self.byte.is_none() {
                break;
            }
            self.next();
        }
    }

    // The value of the digit that was read last, if it was one.
    fn digit(&self) -> Option<u8> {
        match self.byte {
            Some(byte @ b'0'..=b'9') => Some(byte - b'0'),
            _ => None,
        }
    }

    // Reads digits up to the byte that ends them. A number that 64 bits do not hold is the largest of them: it fits no field.
    fn digits(&mut self, first: u8) -> u64 {
        let mut number = u64::from(first);
        // As in `skip`: a `loop` would need a proof that the input ends.
        for _ in 0..u64::MAX {
            self.next();
            let Some(digit) = self.digit() else { break };
            number = number.saturating_mul(10).saturating_add(u64::from(digit));
        }
        number
    }

    // Reads a number, where the space before it was read last.
    fn whole(&mut self) -> Result<u64, NotACase> {
        self.been(b' ')?;
        self.next();
        let first = self.digit().ok_or(NotACase)?;
        Ok(self.digits(first))
    }

    // Reads a number that its type can hold.
    pub(crate) fn number<T: TryFrom<u64>>(&mut self) -> Result<T, NotACase>
    where
        T::Error: Drop,
    {
        T::try_from(self.whole()?).map_err(|_| NotACase)
    }

    // Reads a length of at most `largest`.
    pub(crate) fn length(&mut self, largest: usize) -> Result<usize, NotACase>
        ensures { IfOk result (λ n. n ≤ largest) }
    {
        let length = self.number()?;
        if length <= largest {
            Ok(length)
        } else {
            Err(NotACase)
        }
    }

    // Reads the bytes of a text, of which the first was read last, up to the line's newline, or as many as the list has.
    fn bytes(&mut self, list: &mut Text) -> usize
        ensures { result ≤ LONGEST }
    {
        for (count, place) in list.iter_mut().enumerate() {
            match self.byte {
                None | Some(b'\n') => return count,
                Some(byte) => *place = unmarked(byte),
            }
            self.next();
        }
        LONGEST
    }

    // Reads a semicolon and the text behind it into the start of a list, where the space before them was read last. A line that ends right behind the semicolon has
    // no text.
    pub(crate) fn text<'t>(&mut self, list: &'t mut Text) -> Result<&'t [u8], NotACase> {
        self.been(b' ')?;
        self.expect(b";")?;
        if self.next() == Some(b' ') {
            self.next();
        } else {
            self.end_of_line()?;
        }
        let count = self.bytes(list);
        // No listing has as many bytes as the list, so what finds no room there changes no answer.
        self.skip();
        self.end_of_line()?;
        match &list[..count] {
            // A text of - alone is empty.
            [b'-'] => Ok(&[]),
            text => Ok(text),
        }
    }
}
