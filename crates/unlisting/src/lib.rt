// A listing read back: accepted exactly if it is the listing of some words, which then stand in the range; else refused with its first line not in form.
#![tactic(auto)]

ghost use Rattle.std.specs.Prelude.{◌≡◌, ◌+◌, ◌-◌, ◌≤◌, length, slice_index};
ghost use Rattle.std.proofs.lemmas.List.Edits.{sets};
ghost use Rattle.lines.specs.Lines.{digit};
ghost use Rattle.unlisting.specs.Unlisting.{word_in, read_lines, numbered, leaves, reading};
ghost use Rattle.unlisting.specs.Passes.{line_in, checked};
ghost use Rattle.unlisting.specs.Together.{Together};

use listed_lines::Standing;
use listing::{ListingNumbers, Refusal};
use text::Text;

// The numbers of an answer. No text is written.
#[tactic(auto, unfolding(crate::specs::Unlisting::numbered))]
pub fn numbered(answer: Result<(), Refusal>) -> ListingNumbers
    ensures { result ≡ numbered answer }
{
    listing::numbered(answer.map(|_| 0))
}

// The octal digit of a byte of a text; 0 where the text has no such byte.
fn digit_at(text: &[u8], at: usize) -> u16
    ensures { result ≡ digit (slice_index text.now at) }
{
    text.get(at).map_or(0, |byte| lines::digit(*byte))
}

// The word that the digits of a line make.
#[tactic(auto, unfolding(lines::specs::Lines::four))]
fn word_in(text: &[u8]) -> u16
    ensures { result ≡ word_in text.now }
{
    512 * digit_at(text, 6) + 64 * digit_at(text, 7) + 8 * digit_at(text, 8) + digit_at(text, 9)
}

// The word and the length of the line that a text begins with. None where it begins with no line in form.
fn line_in(text: &[u8], address: u16, shown: bool) -> Option<(u16, usize)>
    ensures { result ≡ line_in text.now address shown }
{
    let word = word_in(text);
    let mut line = [0u8; listing::LONGEST];
    let mut written = Text::new(&mut line);
    listed_lines::put_line(address, word, shown, &mut written);
    if text.starts_with(written.as_bytes()) {
        Some((word, written.place))
    } else {
        None
    }
}

// The line behind so many that are in form.
fn not_in_form(before: u16) -> Refusal
    ensures { result ≡ Refusal.Line (before + 1) }
{
    Refusal::Line(before as u32 + 1)
}

// Whether a text is lines in form, one a word of the range, and nothing else.
fn check(text: &[u8], low: u16, high: u16, from: Standing) -> Result<(), Refusal>
    requires { low ≤ high }
    ensures { result ≡ checked (high - low) (read_lines (high - low) low from text.now) }
{
    let mut standing = from;
    let mut length = 0;
    for address in low..high {
        let Some((word, more)) = line_in(&text[length..], address, standing.shown()) else {
            return Err(not_in_form(address - low));
        };
        standing = standing.after(word);
        length += more;
    }
    if length == text.len() {
        Ok(())
    } else {
        Err(not_in_form(high - low))
    }
}

// Lays the words of lines into a range, up to the first line that is not in form. No one function with `check`: it would be told by a parameter whether it may
// write.
fn lay(text: &[u8], memory: &mut [u16], low: u16, high: u16, from: Standing)
    requires { high ≤ length memory.old }
    ensures { memory.new ≡ sets memory.old low (read_lines (high - low) low from text.now).words }
{
    let mut standing = from;
    let mut length = 0;
    for address in low..high {
        let Some((word, more)) = line_in(&text[length..], address, standing.shown()) else {
            return;
        };
        memory[address as usize] = word;
        standing = standing.after(word);
        length += more;
    }
}

// Reads a listing back into the words of a range, from a state and a mode on.
pub fn read(
    text: &[u8],
    memory: &mut [u16],
    low: u16,
    high: u16,
    state: u8,
    mode: u8,
) -> Result<(), Refusal>
    ensures { leaves result memory.new ≡ reading text.now memory.old low high state mode }
{
    listing::accept(memory.len(), low, high, state, mode)?;
    let from = Standing::starting(state, mode);
    check(text, low, high, from)?;
    lay(text, memory, low, high, from);
    Ok(())
}

// Listing and reading belong together. It does nothing: its promise is the theorem, so that a check names it.
pub fn together()
    ensures { Together }
{}
