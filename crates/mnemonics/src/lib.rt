// The mnemonics of control words: the manual's table A3-3 as a constant, and what they say of a word.
#![tactic(auto)]

ghost use Rattle.std.specs.Prelude.{◌≡◌, [], ◌∷◌};
ghost use Rattle.text.specs.Adds.{Adds};
ghost use Rattle.mnemonics.specs.Mnemonics.{kind, applies, letters, name, names, uncovered, rest, rest_field, mnemonics, Distinct, Falling};

use text::Text;

// A name, filled up with spaces to five bytes; the mnemonic's value; the bits of a word that are looked at; and the kinds of word that it stands in.
#[derive(Clone, Copy)]
struct Row {
    name: [u8; 5],
    value: u16,
    mask: u16,
    kinds: u16,
}

// Sets of kinds of word, a bit for each kind: op code 0,
const PARAMETERS: u16 = 0o4000;
// 1,
const MODES: u16 = 0o2000;
// 2,
const JUMPS: u16 = 0o1000;
// 3,
const POPS: u16 = 0o0400;
// 4,
const FIRST_BANK: u16 = 0o0200;
// 5,
const SECOND_BANK: u16 = 0o0100;
// 60,
const FIRST_COMPARE: u16 = 0o0040;
// 61,
const SECOND_COMPARE: u16 = 0o0020;
// 62,
const FLAGS: u16 = 0o0010;
// 63,
const COUNTS: u16 = 0o0004;
// 64 to 67.
const SLAVES: u16 = 0o0002;
// Words that set scale and pen.
const SETTINGS: u16 = PARAMETERS + JUMPS + POPS;
// Words that skip on buttons and set them.
const BUTTONS: u16 = FIRST_BANK + SECOND_BANK;

// A row of the table on one line.
macro_rules! row {
    ($name:literal, $value:literal, $mask:literal, $kinds:ident) => {
        Row {
            name: *$name,
            value: $value,
            mask: $mask,
            kinds: $kinds,
        }
    };
}

const TABLE: [Row; 55] = [
    row!(b"JUMP ", 0o2000, 0o0010, JUMPS),
    row!(b"PJMP ", 0o2010, 0o0010, JUMPS),
    row!(b"POP  ", 0o3000, 0o0000, POPS),
    row!(b"SK1  ", 0o4000, 0o0000, FIRST_BANK),
    row!(b"SK2  ", 0o5000, 0o0000, SECOND_BANK),
    row!(b"SK3  ", 0o6000, 0o0000, FIRST_COMPARE),
    row!(b"SK4  ", 0o6100, 0o0000, SECOND_COMPARE),
    row!(b"SG0  ", 0o6400, 0o0300, SLAVES),
    row!(b"SG1  ", 0o6500, 0o0300, SLAVES),
    row!(b"SG2  ", 0o6600, 0o0300, SLAVES),
    row!(b"SG3  ", 0o6700, 0o0300, SLAVES),
    row!(b"SC1  ", 0o0400, 0o0700, SETTINGS),
    row!(b"SC2  ", 0o0500, 0o0700, SETTINGS),
    row!(b"SC4  ", 0o0600, 0o0700, SETTINGS),
    row!(b"SC8  ", 0o0700, 0o0700, SETTINGS),
    row!(b"LPOF ", 0o0040, 0o0060, SETTINGS),
    row!(b"LPON ", 0o0060, 0o0060, SETTINGS),
    row!(b"INT  ", 0o0010, 0o0010, PARAMETERS),
    row!(b"STOP ", 0o1400, 0o0400, MODES),
    row!(b"CLDF ", 0o1200, 0o0200, MODES),
    row!(b"POINT", 0o1100, 0o0170, MODES),
    row!(b"INCR ", 0o1110, 0o0170, MODES),
    row!(b"VEC  ", 0o1120, 0o0170, MODES),
    row!(b"VECON", 0o1130, 0o0170, MODES),
    row!(b"SVEC ", 0o1140, 0o0170, MODES),
    row!(b"CHAR ", 0o1150, 0o0170, MODES),
    row!(b"GRAPH", 0o1160, 0o0170, MODES),
    row!(b"CSB  ", 0o1004, 0o0004, MODES),
    row!(b"CCB  ", 0o1002, 0o0002, MODES),
    row!(b"EDS  ", 0o1001, 0o0001, MODES),
    row!(b"PNM  ", 0o3010, 0o0010, POPS),
    row!(b"PNLS ", 0o3004, 0o0004, POPS),
    row!(b"PNI  ", 0o3002, 0o0002, POPS),
    row!(b"PEDS ", 0o3001, 0o0001, POPS),
    row!(b"INV  ", 0o0400, 0o0400, BUTTONS),
    row!(b"CLAT ", 0o0200, 0o0200, BUTTONS),
    row!(b"COAT ", 0o0100, 0o0100, BUTTONS),
    row!(b"SKIP ", 0o6240, 0o0040, FLAGS),
    row!(b"SNSZ ", 0o6220, 0o0020, FLAGS),
    row!(b"SPB1 ", 0o6210, 0o0010, FLAGS),
    row!(b"SPB2 ", 0o6204, 0o0004, FLAGS),
    row!(b"SLPSI", 0o6202, 0o0002, FLAGS),
    row!(b"CLPSI", 0o6201, 0o0001, FLAGS),
    row!(b"SCUP ", 0o6340, 0o0060, COUNTS),
    row!(b"SCDN ", 0o6360, 0o0060, COUNTS),
    row!(b"INTUP", 0o6310, 0o0014, COUNTS),
    row!(b"INTDN", 0o6314, 0o0014, COUNTS),
    row!(b"BKON ", 0o6302, 0o0002, COUNTS),
    row!(b"BKOF ", 0o6301, 0o0001, COUNTS),
    row!(b"SU0  ", 0o0040, 0o0070, SLAVES),
    row!(b"LP0  ", 0o0060, 0o0060, SLAVES),
    row!(b"IT0  ", 0o0050, 0o0050, SLAVES),
    row!(b"SU1  ", 0o0004, 0o0007, SLAVES),
    row!(b"LP1  ", 0o0006, 0o0006, SLAVES),
    row!(b"IT1  ", 0o0005, 0o0005, SLAVES),
];

// The kind of a control word, from 0 to 11. A number and no enum: it is the place of a bit in a row's kinds.
#[tactic(auto, unfolding(crate::specs::Mnemonics::kind, words::specs::Words::pick))]
fn kind(word: u16) -> u16
    ensures { result ≡ kind word }
{
    let operation = words::bits(word, 0, 2);
    let minor = words::bits(word, 3, 5);
    if operation < 6 {
        operation
    } else if operation == 7 {
        11
    } else if minor < 4 {
        6 + minor
    } else {
        10
    }
}

// Whether a mnemonic stands on the line of a word.
#[tactic(auto, unfolding(crate::specs::Mnemonics::applies))]
fn applies(row: Row, word: u16) -> bool
    ensures { result ≡ applies row word }
{
    words::bit(row.kinds, kind(word)) & ((word & row.mask) == (row.value & row.mask))
}

// One byte of a name; spaces only fill it up.
#[tactic(auto, unfolding(crate::specs::Mnemonics::letters, text::specs::Text::puts, words::specs::Words::pick))]
fn put_letter(byte: u8, text: &mut Text)
    ensures { Adds text.old text.new (letters (byte ∷ [])) }
{
    if byte != b' ' {
        text.put(byte);
    }
}

// A name without what fills it up.
fn put_letters(name: &[u8], text: &mut Text)
    ensures { Adds text.old text.new (letters name.now) }
{
    for letter in name {
        put_letter(*letter, text);
    }
}

// A space and the name of a row, if it stands on the line.
#[tactic(auto, using(text::proofs::Puts::adds_behind), unfolding(crate::specs::Mnemonics::name, text::specs::Text::puts, words::specs::Words::pick))]
fn put_name(row: Row, word: u16, text: &mut Text)
    ensures { Adds text.old text.new (name word row) }
{
    if applies(row, word) {
        text.put(b' ');
        put_letters(&row.name, text);
    }
}

// The names that stand on the line, in the table's order.
fn put_names(word: u16, text: &mut Text)
    ensures { Adds text.old text.new (names word) }
{
    for row in &TABLE {
        put_name(*row, word, text);
    }
}

// What is left of a word's bits by a mnemonic that stands on its line.
#[tactic(auto, unfolding(crate::specs::Mnemonics::uncovered, words::specs::Words::pick))]
fn uncovered(row: Row, word: u16, left: u16) -> u16
    ensures { result ≡ uncovered row word left }
{
    if applies(row, word) {
        left - (left & row.value)
    } else {
        left
    }
}

// The bits of a word that no mnemonic on its line covers.
pub fn rest(word: u16) -> u16
    ensures { result ≡ rest word }
{
    let mut left = word;
    for row in &TABLE {
        left = uncovered(*row, word, left);
    }
    left
}

// A space and the rest in octal, unless it is 0.
#[tactic(auto, using(text::proofs::Puts::adds_behind), unfolding(crate::specs::Mnemonics::rest_field, text::specs::Text::puts, words::specs::Words::pick))]
fn put_rest(left: u16, text: &mut Text)
    ensures { Adds text.old text.new (rest_field left) }
{
    if left != 0 {
        text.put(b' ');
        text.put_octal(left);
    }
}

// What a line says of a control word: its mnemonics and the rest.
pub fn put_mnemonics(word: u16, text: &mut Text)
    ensures { Adds text.old text.new (mnemonics word) }
{
    put_names(word, text);
    put_rest(rest(word), text);
}

// No two rows are alike. It does nothing: its promise is the test of all rows, so that a check names it.
#[tactic(auto, unfolding(text::specs::Text::bytes, crate::specs::Mnemonics::rows, crate::specs::Mnemonics::each_behind, crate::specs::Mnemonics::each_pair, crate::specs::Mnemonics::same, crate::specs::Mnemonics::unlike))]
pub fn distinct()
    ensures { Distinct }
{}

// The modifiers of any word stand by falling bit, by a test of all rows.
#[tactic(auto, unfolding(text::specs::Text::bytes, crate::specs::Mnemonics::rows, crate::specs::Mnemonics::each_behind, crate::specs::Mnemonics::each_pair, crate::specs::Mnemonics::together, crate::specs::Mnemonics::falls))]
pub fn falling()
    ensures { Falling }
{}
