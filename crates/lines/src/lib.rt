// Lines of octal digits, as the practice program reads them: each an address and its word, laid into a memory.
#![tactic(auto)]

ghost use Rattle.std.specs.Prelude.{◌≡◌, ◌+◌, ◌≤◌, length};
ghost use Rattle.lines.specs.Lines.{is_octal, octals, is_line, digit, four, address, reads, read, start};

// A line has eleven bytes: five octal digits, a space, four octal digits, a newline.
pub const LINE: usize = 11;

// So many lines may be read.
const MOST: usize = 4096;

pub fn is_octal(byte: u8) -> bool
    ensures { result ≡ is_octal byte }
{
    (48 <= byte) & (byte <= 55)
}

#[tactic(auto, unfolding(crate::specs::Lines::octals))]
fn octals(input: &[u8], at: usize) -> bool
    requires { at + 4 ≤ length input.now }
    ensures { result ≡ octals input.now at }
{
    is_octal(input[at])
        & is_octal(input[at + 1])
        & is_octal(input[at + 2])
        & is_octal(input[at + 3])
}

#[tactic(auto, unfolding(crate::specs::Lines::is_line, words::specs::Words::pick))]
fn is_line(input: &[u8], at: usize) -> bool
    requires { at ≤ 45056 }
    ensures { result ≡ is_line input.now at }
{
    at + LINE <= input.len()
        && octals(input, at)
        && is_octal(input[at + 4])
        && input[at + 5] == b' '
        && octals(input, at + 6)
        && input[at + 10] == b'\n'
}

// The digit 0 is 60o, so a digit's value is its last three bits.
pub fn digit(byte: u8) -> u16
    ensures { result ≡ digit byte }
{
    (byte % 8) as u16
}

#[tactic(auto, unfolding(crate::specs::Lines::four))]
fn four(input: &[u8], at: usize) -> u16
    requires { at + 4 ≤ length input.now }
    ensures { result ≡ four input.now at }
{
    512 * digit(input[at])
        + 64 * digit(input[at + 1])
        + 8 * digit(input[at + 2])
        + digit(input[at + 3])
}

#[tactic(auto, unfolding(crate::specs::Lines::address))]
fn address(input: &[u8], at: usize) -> u16
    requires { at + 11 ≤ length input.now }
    ensures { result ≡ address input.now at }
{
    8 * four(input, at) + digit(input[at + 4])
}

// Reads lines up to the first that is none, at most 4,096, and answers how many.
pub fn read(input: &[u8], memory: &mut [u16; 32768]) -> usize
    ensures { reads result memory.new ≡ read 4096 input.now 0 memory.old }
{
    for count in 0..MOST {
        let at = LINE * count;
        if !is_line(input, at) {
            return count;
        }
        let place = address(input, at) as usize;
        memory[place] = four(input, at + 6);
    }
    MOST
}

// The first line's address.
#[tactic(auto, unfolding(crate::specs::Lines::start, words::specs::Words::pick))]
pub fn start(input: &[u8]) -> u16
    ensures { result ≡ start input.now }
{
    if LINE <= input.len() {
        address(input, 0)
    } else {
        0
    }
}
