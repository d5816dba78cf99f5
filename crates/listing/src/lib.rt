// The listing of a range of words: a line a word, put into a lent list of bytes, or a refusal that writes nothing.
#![tactic(auto)]

ghost use Rattle.std.specs.Prelude.{◌≡◌, ◌≤◌, length};
ghost use Rattle.std.proofs.Math.Seq.{slice};
ghost use Rattle.text.specs.Text.{filled, puts};
ghost use Rattle.text.specs.Adds.{Adds};
ghost use Rattle.listed_lines.specs.ListedLines.{line_of};
ghost use Rattle.listing.specs.Listing.{number, line, refusal, lines_of, numbered, leaves, listed};
ghost use Rattle.listing.specs.Measuring.{measured};

use listed_lines::Standing;
use text::Text;

// No line is longer: ten bytes, 55 names with a space each, a space and four digits, a newline.
pub const LONGEST: usize = 346;

// No larger word is listed: a word has 12 bits.
const LARGEST: u16 = 4095;

// Why a listing or its reading is refused.
#[derive(Clone, Copy, Debug, PartialEq, Eq)]
pub enum Refusal {
    // The memory is not 32,768 long.
    Memory,
    // Of the range.
    Range,
    // Of the state or the mode.
    Start,
    // A word is above 4,095.
    Word,
    // The text list is too short.
    Room,
    // The first line not in form, from 1.
    Line(u32),
}

// This paper's numbers for what a listing or its reading answers.
#[derive(Clone, Copy)]
pub struct ListingNumbers {
    pub refusal: u8,
    // The first line not in form, where the refusal is 7.
    pub line: u32,
    // The length of the text that was written.
    pub length: usize,
}

// Its number (02, No. 2).
impl From<Refusal> for u8 {
    ghost from_gives = { λ refusal n. n ≡ number refusal };

    fn from(refusal: Refusal) -> u8 {
        match refusal {
            Refusal::Memory => 1,
            Refusal::Range => 3,
            Refusal::Start => 6,
            Refusal::Word => 24,
            Refusal::Room => 23,
            Refusal::Line(_) => 7,
        }
    }
}

impl Refusal {
    // The line that it names, or 0.
    pub fn line(self) -> u32
        ensures { result ≡ line self }
    {
        match self {
            Refusal::Line(line) => line,
            _ => 0,
        }
    }
}

// The numbers of an answer: a refusal, or how many bytes the text has.
#[tactic(auto, unfolding(crate::specs::Listing::numbered))]
pub fn numbered(answer: Result<usize, Refusal>) -> ListingNumbers
    ensures { result ≡ numbered answer }
{
    match answer {
        Err(refusal) => ListingNumbers {
            refusal: u8::from(refusal),
            line: refusal.line(),
            length: 0,
        },
        Ok(length) => ListingNumbers {
            refusal: 0,
            line: 0,
            length,
        },
    }
}

// The first refusal of 1, 3 and 6 that applies, if one does. The range's numbers stand apart, here and in what calls it, as the C interface hands them over.
#[tactic(auto, unfolding(crate::specs::Listing::refusal, words::specs::Words::pick))]
pub fn accept(words: usize, low: u16, high: u16, state: u8, mode: u8) -> Result<(), Refusal>
    ensures { result ≡ refusal words low high state mode }
{
    if words != 32768 {
        Err(Refusal::Memory)
    } else if !loan::fair_range(low, high) {
        Err(Refusal::Range)
    } else if (state <= 1) & (mode <= 7) {
        Ok(())
    } else {
        Err(Refusal::Start)
    }
}

fn line_length(address: u16, word: u16, shown: bool) -> usize
    ensures { result ≡ length (line_of address word shown) }
{
    let mut line = [0; LONGEST];
    let mut text = Text::new(&mut line);
    listed_lines::put_line(address, word, shown, &mut text);
    text.place
}

// How long the lines of a range are. A word above 4,095 is refused.
fn measure(memory: &[u16], low: u16, high: u16, from: Standing) -> Result<usize, Refusal>
    requires { (low ≤ high) × (high ≤ length memory.now) }
    ensures { result ≡ measured low from (slice low high memory.now) }
{
    let mut total: usize = 0;
    let mut standing = from;
    for address in low..high {
        let word = memory[address as usize];
        if word > LARGEST {
            return Err(Refusal::Word);
        }
        total += line_length(address, word, standing.shown());
        standing = standing.after(word);
    }
    Ok(total)
}

fn put_lines(memory: &[u16], low: u16, high: u16, from: Standing, text: &mut Text)
    requires { (low ≤ high) × (high ≤ length memory.now) }
    ensures { Adds text.old text.new (lines_of low from (slice low high memory.now)) }
{
    let mut standing = from;
    for address in low..high {
        let word = memory[address as usize];
        listed_lines::put_line(address, word, standing.shown(), text);
        standing = standing.after(word);
    }
}

// The lines of a range at the start of a list, and how far they fill it.
fn fill(memory: &[u16], low: u16, high: u16, from: Standing, list: &mut [u8]) -> usize
    requires { (low ≤ high) × (high ≤ length memory.now) }
    ensures { filled result list.new ≡ puts (lines_of low from (slice low high memory.now)) (filled 0 list.old) }
{
    let mut text = Text::new(list);
    put_lines(memory, low, high, from, &mut text);
    text.place
}

// Lists the words of a range from a state and a mode on, and answers how many bytes the text has.
pub fn list(
    memory: &[u16],
    low: u16,
    high: u16,
    state: u8,
    mode: u8,
    text: &mut [u8],
) -> Result<usize, Refusal>
    ensures { leaves result text.new ≡ listed memory.now low high state mode text.old }
{
    accept(memory.len(), low, high, state, mode)?;
    let from = Standing::starting(state, mode);
    let length = measure(memory, low, high, from)?;
    if text.len() < length {
        return Err(Refusal::Room);
    }
    Ok(fill(memory, low, high, from, text))
}
