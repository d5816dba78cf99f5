// What a stopped run is shown by: its points, its endings in words, and the words that the stop held and the class changed.
use registers::Registers;
use runs::Ran;
use std::io;
use std::io::Print;
use text::Text;

// Writes a line for each of the first `count` points.
pub(crate) fn write_points(out: &impl Print, points: &[u64; 1024], count: usize) -> io::Result<()> {
    let mut lines: [u8; 30720] = console::all(0);
    let mut text = Text::new(&mut lines);
    printout::put_points(points, count, &mut text);
    console::write(out, text.as_bytes())
}

// Writes how a part of the run ended, in words.
pub(crate) fn write_ending(out: &impl Print, ran: Ran) -> io::Result<()> {
    let mut line = [0u8; 128];
    let mut text = Text::new(&mut line);
    meanings::put_sentence(ran.answer, ran.registers, &mut text);
    console::write(out, text.as_bytes())
}

// Writes what became of a word, with its address.
pub(crate) fn write_word(out: &impl Print, what: &[u8], address: u16, word: u16) -> io::Result<()> {
    let mut line = [0u8; 64];
    let mut text = Text::new(&mut line);
    text.put_all(what);
    text.put_address(address);
    text.put(b' ');
    text.put_word(word);
    text.put(b'\n');
    console::write(out, text.as_bytes())
}

// Writes the word that is held.
pub(crate) fn write_held(out: &impl Print, r: Registers) -> io::Result<()> {
    match r.base.held {
        None => Ok(()),
        Some(word) => write_word(out, b"held ", r.base.address.number(), word),
    }
}

pub(crate) fn write_resumed(out: &impl Print) -> io::Result<()> {
    console::write(out, b"resumed\n")
}
