// A lesson as people write it, with comments, blank lines and blanks of any kind, read byte by byte into a memory.
#![tactic(auto)]

ghost use Rattle.std.specs.Prelude.{◌≡◌};
ghost use Rattle.source.specs.Source.{is_blank, at_rest, after_digit, after_comment, next, unread, address_with, word_with, spanned, reads, read};

// A lesson may have this many bytes and not one more, with its comments.
pub const LONGEST: usize = 262144;

// Where the words of a lesson stand: the first one's address, the lowest address and the one behind the highest.
#[derive(Clone, Copy, Debug, PartialEq, Eq)]
pub struct Span {
    pub start: u16,
    pub low: u16,
    pub high: u16,
}

// The line that is being read, how far it is, and where the words before it stand, if there was one.
#[derive(Clone, Copy, Debug, PartialEq, Eq)]
pub struct Source {
    // A number, and no enum: the definition counts the digits of a line by it.
    pub place: u8,
    pub address: u16,
    pub word: u16,
    pub span: Option<Span>,
}

fn is_blank(byte: u8) -> bool
    ensures { result ≡ is_blank byte }
{
    (byte == b' ') | (byte == b'\t') | (byte == b'\r')
}

fn at_rest(place: u8) -> bool
    ensures { result ≡ at_rest place }
{
    (place == 0) | (place == 10)
}

#[tactic(auto, unfolding(crate::specs::Source::after_digit, words::specs::Words::pick))]
fn after_digit(place: u8, byte: u8) -> u8
    ensures { result ≡ after_digit place byte }
{
    if lines::is_octal(byte) & (place < 10) & (place != 5) {
        place + 1
    } else {
        12
    }
}

#[tactic(auto, unfolding(crate::specs::Source::after_comment, words::specs::Words::pick))]
fn after_comment(place: u8, byte: u8) -> u8
    ensures { result ≡ after_comment place byte }
{
    if (place == 11) & (byte == b'\n') {
        0
    } else {
        place
    }
}

#[tactic(auto, unfolding(crate::specs::Source::next, words::specs::Words::pick))]
fn next(place: u8, byte: u8) -> u8
    ensures { result ≡ next place byte }
{
    if 11 <= place {
        after_comment(place, byte)
    } else if byte == b'\n' {
        words::pick(at_rest(place), 0, 12)
    } else if byte == b'/' {
        words::pick(at_rest(place), 11, 12)
    } else if is_blank(byte) {
        let between = words::pick((5 <= place) & (place <= 6), 6, 12);
        words::pick(at_rest(place), place, between)
    } else {
        after_digit(place, byte)
    }
}

fn address_with(address: u16, byte: u8) -> u16
    ensures { result ≡ address_with address byte }
{
    8 * (address % 4096) + lines::digit(byte)
}

fn word_with(word: u16, byte: u8) -> u16
    ensures { result ≡ word_with word byte }
{
    8 * (word % 512) + lines::digit(byte)
}

// Where the words stand with one more.
#[tactic(auto, unfolding(crate::specs::Source::spanned, words::specs::Words::pick))]
fn spanned(span: Option<Span>, address: u16) -> Span
    ensures { result ≡ spanned span address }
{
    let behind = address % 32768 + 1;
    let Some(span) = span else {
        return Span {
            start: address,
            low: address,
            high: behind,
        };
    };
    Span {
        start: span.start,
        low: span.low.min(address),
        high: words::pick(address < span.high, span.high, behind),
    }
}

impl Source {
    ghost use Rattle.source.specs.Source.{noted, fills, moved, step, laid, is_broken, whole};

    // A lesson of which nothing is read.
    pub fn unread() -> Source
        ensures { result ≡ unread }
    {
        Source {
            place: 0,
            address: 0,
            word: 0,
            span: None,
        }
    }

    // The word is whole.
    fn noted(self) -> Source
        ensures { result ≡ noted self }
    {
        Source {
            span: Some(spanned(self.span, self.address)),
            ..self
        }
    }

    // Whether a byte makes the word whole.
    pub fn fills(self, byte: u8) -> bool
        ensures { result ≡ fills self byte }
    {
        (self.place == 9) & lines::is_octal(byte)
    }

    // Where the line is behind a byte. Put in line, as what goes through all bytes of a lesson by it: called, each takes half as much time again.
    #[inline(always)]
    #[tactic(auto, unfolding(crate::specs::Source::moved, words::specs::Words::pick))]
    fn moved(self, byte: u8) -> Source
        ensures { result ≡ moved self byte }
    {
        let octal = lines::is_octal(byte);
        let address = address_with(self.address, byte);
        let word = word_with(self.word, byte);
        Source {
            place: next(self.place, byte),
            address: words::pick(octal & (self.place < 5), address, self.address),
            word: words::pick(
                octal & (6 <= self.place) & (self.place < 10),
                word,
                self.word,
            ),
            ..self
        }
    }

    // One byte more, for who reads without a memory.
    #[inline(always)]
    #[tactic(auto, unfolding(words::specs::Words::pick))]
    pub fn step(self, byte: u8) -> Source
        ensures { result ≡ step self byte }
    {
        let moved = self.moved(byte);
        if self.fills(byte) {
            moved.noted()
        } else {
            moved
        }
    }

    // Lays the word that a byte makes whole into the memory.
    #[inline(always)]
    #[tactic(auto, unfolding(words::specs::Words::pick))]
    fn lay(self, byte: u8, memory: &mut [u16; 32768])
        ensures { memory.new ≡ laid self byte memory.old }
    {
        if self.fills(byte) {
            let moved = self.moved(byte);
            memory[(moved.address % 32768) as usize] = moved.word;
        }
    }

    // Whether the line is none, for good.
    pub fn is_broken(self) -> bool
        ensures { result ≡ is_broken self }
    {
        self.place == 12
    }

    // Where its words stand, if it was a lesson.
    #[tactic(auto, unfolding(words::specs::Words::pick))]
    pub fn whole(self) -> Option<Span>
        ensures { result ≡ whole self }
    {
        if at_rest(self.place) | (self.place == 11) {
            self.span
        } else {
            None
        }
    }
}

// Reads a whole text.
#[tactic(auto, using(crate::proofs::Reading::read_next, crate::proofs::Reading::read_ends))]
pub fn read(input: &[u8], memory: &mut [u16; 32768]) -> Source
    ensures { reads result memory.new ≡ read unread memory.old input.now }
{
    let mut s = Source::unread();
    for byte in input {
        s.lay(*byte, memory);
        s = s.step(*byte);
    }
    s
}
