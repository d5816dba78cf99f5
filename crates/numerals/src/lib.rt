// Numbers and ranges as people write them: digits in octal or decimal, and LOW-HIGH.
#![tactic(auto)]

ghost use Rattle.std.specs.Prelude.{◌≡◌, ◌==◌, ◌≤◌, position, IfSome};
ghost use Rattle.numerals.specs.Numerals.{is_digit, grown, numeral, limited, range};

// A half-open range of a memory.
#[derive(Clone, Copy, Debug, PartialEq, Eq)]
pub struct Bounds {
    pub low: u16,
    pub high: u16,
}

fn is_digit(base: u32, byte: u8) -> bool
    requires { base ≤ 10 }
    ensures { result ≡ is_digit base byte }
{
    (48 <= byte) & ((byte as u32) < 48 + base)
}

// The number with one digit more.
#[tactic(auto, unfolding(crate::specs::Numerals::grown, words::specs::Words::pick))]
fn grown(base: u32, n: u32, byte: u8) -> Option<u32>
    requires { (base ≤ 10) × (n ≤ 1000000) }
    ensures number { result ≡ grown base n byte }
    ensures small { IfSome result (λ m. m ≤ 1000000) }
{
    if !is_digit(base, byte) {
        return None;
    }
    Some((base * n + (byte % 16) as u32).min(1000000))
}

// The number that digits make.
#[tactic(auto, unfolding(crate::specs::Numerals::digits, words::specs::Words::pick), using(crate::proofs::Digits::digits_next, crate::proofs::Digits::digits_done))]
fn numeral(base: u32, s: &[u8]) -> Option<u32>
    requires { base ≤ 10 }
    ensures { result ≡ numeral base s.now }
{
    if s.is_empty() {
        return None;
    }
    let mut n = 0;
    for byte in s {
        n = grown(base, n, *byte)?;
    }
    Some(n)
}

#[tactic(auto, unfolding(crate::specs::Numerals::limited, words::specs::Words::pick))]
fn limited(base: u32, most: u32, s: &[u8]) -> Option<u32>
    requires { base ≤ 10 }
    ensures { result ≡ limited base most s.now }
{
    numeral(base, s).filter(|n| *n <= most)
}

// A number in octal, and one in decimal: `limited` in one base, named where it is called in place of a number that every call would have to give.
pub fn octal(most: u32, s: &[u8]) -> Option<u32>
    ensures { result ≡ limited 8 most s.now }
{
    limited(8, most, s)
}

pub fn decimal(most: u32, s: &[u8]) -> Option<u32>
    ensures { result ≡ limited 10 most s.now }
{
    limited(10, most, s)
}

// Where the first hyphen stands.
fn hyphen(s: &[u8]) -> Option<usize>
    ensures { result ≡ position (λ byte. byte == 45) s.now }
{
    s.iter().position(|byte| *byte == b'-')
}

// LOW-HIGH in octal.
#[tactic(auto, unfolding(crate::specs::Numerals::ordered, words::specs::Words::pick), using(crate::proofs::Digits::range_none))]
pub fn range(s: &[u8]) -> Option<Bounds>
    ensures { result ≡ range s.now }
{
    let at = hyphen(s)?;
    let low = octal(32768, &s[..at])?;
    let high = octal(32768, &s[at + 1..])?;
    if high < low {
        return None;
    }
    Some(Bounds {
        low: (low % 65536) as u16,
        high: (high % 65536) as u16,
    })
}
