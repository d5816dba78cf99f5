// A run, a line a beat: where it stands, the words it takes up, where it leaves the beam, and its point.
use crate::Memory;
use addresses::DisplayAddress;
use arguments::Asked;
use endings::Ending;
use loan::Loan;
use registers::{CharacterMotion, Motion, Registers, Stage};
use runs::{Answer, Ran};
use source::Span;
use std::io;
use std::io::Print;
use text::Text;

// What a beat takes up: the words at the display address, no word for a move, or the word that an unfinished character fetches.
#[derive(Clone, Copy)]
enum Takes {
    Words,
    Move,
    Table(DisplayAddress),
    Routine(DisplayAddress),
}

// What a line shows of the registers: where the display stands, what the beat takes up, how a word is read, and the beam.
#[derive(Clone, Copy)]
struct View {
    address: DisplayAddress,
    takes: Takes,
    datastate: bool,
    mode: u8,
    x: u16,
    y: u16,
}

fn character_takes(c: CharacterMotion, starting: u8, upper: bool) -> Takes {
    match c.stage {
        Stage::Table => Takes::Table(characters::table_address(c, starting, upper)),
        Stage::Routine(_, next) => Takes::Routine(next),
        Stage::Increments(_, _) => Takes::Move,
        Stage::Short(_, _) => Takes::Move,
    }
}

fn taken_up(motion: Motion, starting: u8, upper: bool) -> Takes {
    match motion {
        Motion::Nothing => Takes::Words,
        Motion::Line(_, _) => Takes::Move,
        Motion::Bytes(_, _) => Takes::Move,
        Motion::Character(c) => character_takes(c, starting, upper),
    }
}

fn seen(r: Registers) -> View {
    View {
        address: r.base.address,
        takes: taken_up(r.motion, r.base.starting, r.base.upper),
        datastate: r.base.datastate,
        mode: r.base.mode,
        x: r.base.x,
        y: r.base.y,
    }
}

// Whether a word has a second one: a jump, or data of a point, a vector or a vector continue. The mode is a number, as in the registers.
fn is_long(v: View, word: u16) -> bool {
    if v.datastate {
        matches!(v.mode, 0 | 2 | 3)
    } else {
        word / 512 == 2
    }
}

fn word_at(memory: &Memory, address: DisplayAddress) -> u16 {
    memory[(address.number() % 32768) as usize]
}

// The words of a command at the display address.
fn put_command(v: View, memory: &Memory, text: &mut Text) {
    let word = word_at(memory, v.address);
    text.put_word(word);
    if is_long(v, word) {
        text.put(b' ');
        text.put_word(word_at(memory, v.address.after(1)));
    }
}

// A word that an unfinished character fetches, with its address.
fn put_fetched(address: DisplayAddress, memory: &Memory, text: &mut Text) {
    text.put_address(address.number());
    text.put(b' ');
    text.put_word(word_at(memory, address));
}

// The words that a beat takes up.
fn put_words(v: View, memory: &Memory, text: &mut Text) {
    match v.takes {
        Takes::Words => put_command(v, memory, text),
        Takes::Move => text.put_all(b"a move"),
        Takes::Table(at) => {
            text.put_all(b"table word ");
            put_fetched(at, memory, text);
        }
        Takes::Routine(at) => {
            text.put_all(b"routine word ");
            put_fetched(at, memory, text);
        }
    }
}

// What stands of a line before its beat: the beat may write over its own words.
fn put_before(beat: u32, v: View, memory: &Memory, text: &mut Text) {
    text.put_all(b"beat ");
    text.put_decimal(beat);
    text.put_all(b" at ");
    text.put_address(v.address.number());
    text.put_all(b": ");
    put_words(v, memory, text);
}

// And what stands behind it.
fn put_after(v: View, points: &[u64], text: &mut Text) {
    text.put_all(b", beam ");
    text.put_number(v.x as u32, b' ');
    text.put_decimal(v.y as u32);
    match points.first() {
        Some(point) => {
            text.put_all(b", point ");
            printout::put_point(*point, text);
        }
        None => text.put_all(b", no point\n"),
    }
}

// Makes one beat by a run of one beat, with room for one point or for none, and writes its line if it could be made.
fn write_beat(
    out: &impl Print,
    beat: u32,
    r: Registers,
    l: Loan,
    memory: &mut Memory,
    points: &mut [u64],
) -> io::Result<Ran> {
    let mut line = [0u8; 128];
    let mut text = Text::new(&mut line);
    put_before(beat, seen(r), memory, &mut text);
    let ran = calls::call(r, l, memory, points, 1);
    let told = calls::numbered(ran.answer);
    if told.beats == 1 {
        let lit = told.points.min(points.len());
        put_after(seen(ran.registers), &points[..lit], &mut text);
        console::write(out, text.as_bytes())?;
    }
    Ok(ran)
}

// Writes a line for each beat of the run that was asked for.
pub(crate) fn write(out: &impl Print, a: Asked, s: Span, memory: &mut Memory) -> io::Result<()> {
    let l = asked::lent(a, s);
    let mut r = asked::started(a, s);
    let mut room = a.room;
    for beat in 0..a.budget {
        let mut point = [0u64; 1];
        let ran = write_beat(
            out,
            beat + 1,
            r,
            l,
            memory,
            &mut point[..room.min(1) as usize],
        )?;
        let Answer::Ended(Ending::BudgetSpent, _, lit) = ran.answer else {
            return Ok(());
        };
        if lit == 1 {
            room = room.saturating_sub(1);
        }
        r = ran.registers;
    }
    Ok(())
}
