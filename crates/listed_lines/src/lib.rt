// A line of a listing, and what the words before it say of it: whether its word is a control word, data or a second word.
#![tactic(auto)]

ghost use Rattle.std.specs.Prelude.{◌≡◌};
ghost use Rattle.text.specs.Adds.{Adds};
ghost use Rattle.listed_lines.specs.ListedLines.{endless, long, escapes, starting, drawn, obeyed, after, shown, fields_of, line_of};

use text::Text;

// Where a listing stands before a word.
#[derive(Clone, Copy)]
pub struct Standing {
    pub datastate: bool,
    // A number, as the register is, and so what is asked of it below is asked of numbers.
    pub mode: u8,
    // The word is the second one of its command.
    pub second: bool,
}

fn endless(mode: u8) -> bool
    ensures { result ≡ endless mode }
{
    matches!(mode, 5 | 7)
}

fn long(mode: u8) -> bool
    ensures { result ≡ long mode }
{
    matches!(mode, 0 | 2 | 3)
}

// Whether a command's last word escapes to control state.
#[tactic(auto, unfolding(crate::specs::ListedLines::escapes, words::specs::Words::pick))]
fn escapes(mode: u8, word: u16) -> bool
    ensures { result ≡ escapes mode word }
{
    match mode {
        1 => {
            registers::escapes(registers::byte_at(word, false))
                | registers::escapes(registers::byte_at(word, true))
        }
        4 => words::bit(word, 6),
        _ => words::bit(word, 0),
    }
}

// Behind a word of data state.
#[tactic(auto, unfolding(crate::specs::ListedLines::drawn, words::specs::Words::pick))]
fn drawn(s: Standing, word: u16) -> Standing
    ensures { result ≡ drawn s word }
{
    let mode = s.mode;
    if endless(mode) {
        s
    } else if long(mode) & !s.second {
        Standing {
            datastate: true,
            mode,
            second: true,
        }
    } else {
        Standing {
            datastate: !escapes(mode, word),
            mode,
            second: false,
        }
    }
}

// Behind the first word of a control command.
#[tactic(auto, unfolding(crate::specs::ListedLines::obeyed))]
fn obeyed(s: Standing, word: u16) -> Standing
    ensures { result ≡ obeyed s word }
{
    let operation = words::bits(word, 0, 2);
    let given = (words::bits(word, 6, 8) % 8) as u8;
    Standing {
        datastate: ((operation == 1) | (operation == 3)) & words::bit(word, 11),
        mode: words::pick((operation == 1) & words::bit(word, 5), given, s.mode),
        second: operation == 2,
    }
}

impl Standing {
    // Before the first word of a range.
    pub fn starting(state: u8, mode: u8) -> Standing
        ensures { result ≡ starting state mode }
    {
        Standing {
            datastate: state == 1,
            mode,
            second: false,
        }
    }

    // Behind a word.
    #[tactic(auto, unfolding(crate::specs::ListedLines::after, words::specs::Words::pick))]
    pub fn after(self, word: u16) -> Standing
        ensures { result ≡ after self word }
    {
        if self.datastate {
            drawn(self, word)
        } else if self.second {
            Standing {
                datastate: false,
                mode: self.mode,
                second: false,
            }
        } else {
            obeyed(self, word)
        }
    }

    // Whether the line shows mnemonics.
    pub fn shown(self) -> bool
        ensures { result ≡ shown self }
    {
        !self.datastate & !self.second
    }
}

// What a line shows of a word behind its octal digits.
#[tactic(auto, unfolding(text::specs::Text::puts, words::specs::Words::pick))]
fn put_shown(word: u16, shown: bool, text: &mut Text)
    ensures { Adds text.old text.new (fields_of word shown) }
{
    if shown {
        mnemonics::put_mnemonics(word, text);
    }
}

// The line of a word.
pub fn put_line(address: u16, word: u16, shown: bool, text: &mut Text)
    ensures { Adds text.old text.new (line_of address word shown) }
{
    text.put_address(address);
    text.put(b' ');
    text.put_word(word);
    put_shown(word, shown, text);
    text.put(b'\n');
}
