// Text as bytes, put one behind the other into a lent list; what finds no room is dropped.
#![tactic(auto)]

ghost use Rattle.std.specs.Prelude.{◌≡◌, [], ◌∷◌, ◌≤◌, take};
ghost use Rattle.text.specs.Text.{filled, puts, octal_digit};

// A lent list that is filled with text up to a place.
#[derive(Drop)]
pub struct Text<'a> {
    pub list: &'a mut [u8],
    pub place: usize,
}

// Puts a byte at a place of a list, and answers the place behind it. The two by themselves stay in the processor's registers: of a text, they would be read anew
// from memory behind each byte that is stored.
#[tactic(auto, unfolding(crate::specs::Text::puts, crate::specs::Text::put, words::specs::Words::pick))]
fn put_at(byte: u8, list: &mut [u8], place: usize) -> usize
    ensures { filled result list.new ≡ puts (byte ∷ []) (filled place list.old) }
{
    if place < list.len() {
        list[place] = byte;
        place + 1
    } else {
        place
    }
}

// The same of bytes, one behind the other.
fn put_all_at(bytes: &[u8], list: &mut [u8], place: usize) -> usize
    ensures { filled result list.new ≡ puts bytes.now (filled place list.old) }
{
    let mut at = place;
    for byte in bytes {
        at = put_at(*byte, list, at);
    }
    at
}

// One octal digit of a number, by its weight.
fn octal_digit(value: u16, weight: u16) -> u8
    requires { 1 ≤ weight }
    ensures { result ≡ octal_digit value weight }
{
    48 + (value / weight % 8) as u8
}

impl<'a> Text<'a> {
    ghost use Rattle.text.specs.Text.{figure, decimal, number, octal, octal_word, octal_address};
    ghost use Rattle.text.specs.Adds.{Adds};

    // A list before anything is put into it.
    pub fn new(list: &'a mut [u8]) -> Text<'a>
        ensures same { result.list.ghost_name ≡ list.entry.ghost_name }
        ensures empty { filled result.place result.list.now ≡ filled 0 list.old }
    {
        Text { list, place: 0 }
    }

    pub fn put(&mut self, byte: u8)
        ensures { Adds self.old self.new (byte ∷ []) }
    {
        self.place = put_at(byte, self.list, self.place);
    }

    pub fn put_all(&mut self, bytes: &[u8])
        ensures { Adds self.old self.new bytes.now }
    {
        self.place = put_all_at(bytes, self.list, self.place);
    }

    // One figure of a number in a base, by its weight: none where the number is smaller.
    #[tactic(auto, unfolding(crate::specs::Text::figure, crate::specs::Text::puts, words::specs::Words::pick))]
    fn put_figure(&mut self, base: u32, value: u32, weight: u32)
        requires { (1 ≤ base) × (base ≤ 10) × (1 ≤ weight) }
        ensures { Adds self.old self.new (figure base value weight) }
    {
        if weight <= value {
            self.put(48 + (value / weight % base) as u8);
        }
    }

    // A number below 100,000 in decimal. Its figures and those of `put_octal` stand one by one, as in their definitions: a loop over weights would need a list of them
    // in both.
    pub fn put_decimal(&mut self, value: u32)
        ensures { Adds self.old self.new (decimal value) }
    {
        self.put_figure(10, value, 10000);
        self.put_figure(10, value, 1000);
        self.put_figure(10, value, 100);
        self.put_figure(10, value, 10);
        self.put(48 + (value % 10) as u8);
    }

    // The number, and the byte that ends it.
    pub fn put_number(&mut self, value: u32, end: u8)
        ensures { Adds self.old self.new (number value end) }
    {
        self.put_decimal(value);
        self.put(end);
    }

    // A number below 4,096 in octal.
    pub fn put_octal(&mut self, value: u16)
        ensures { Adds self.old self.new (octal value) }
    {
        self.put_figure(8, value as u32, 512);
        self.put_figure(8, value as u32, 64);
        self.put_figure(8, value as u32, 8);
        self.put(48 + (value % 8) as u8);
    }

    // The last four octal digits of a number, all that a word has.
    #[tactic(auto, unfolding(crate::specs::Text::octal_word))]
    pub fn put_word(&mut self, word: u16)
        ensures { Adds self.old self.new (octal_word word) }
    {
        self.put_all(&[
            octal_digit(word, 512),
            octal_digit(word, 64),
            octal_digit(word, 8),
            octal_digit(word, 1),
        ]);
    }

    // The last five octal digits of a number, all that an address has.
    pub fn put_address(&mut self, address: u16)
        ensures { Adds self.old self.new (octal_address address) }
    {
        self.put(octal_digit(address, 4096));
        self.put_word(address);
    }

    // What the list is filled with.
    pub fn as_bytes(&self) -> &[u8]
        ensures { result.now ≡ take self.now.place self.now.list.now }
    {
        &self.list[..self.place.min(self.list.len())]
    }
}
