// What a command line asks of a run, taken argument by argument: an option whose value comes behind it waits for it.
#![tactic(auto)]

ghost use Rattle.std.specs.Prelude.{◌≡◌};
ghost use Rattle.arguments.specs.Arguments.{nothing, awaited, all_lent, named, taken};

use numerals::Bounds;

// An option that waits for its value.
#[derive(Clone, Copy, Debug, PartialEq, Eq)]
pub enum Awaited {
    FileRange,
    ListRange,
    Start,
    Pointer,
    Budget,
    Room,
}

// What is shown beside the points and the ending.
#[derive(Clone, Copy, Debug, PartialEq, Eq)]
pub struct Shown {
    pub registers: bool,
    pub changed: bool,
    pub trace: bool,
    pub hint: bool,
}

// What is asked for so far.
#[derive(Clone, Copy, Debug, PartialEq, Eq)]
pub struct Asked {
    // What is lent. The file range is the lesson's own words where none was asked for.
    pub file: Option<Bounds>,
    pub list: Bounds,
    // Where the display starts, the lesson's first word where no address was asked for, and the pushdown pointer.
    pub address: Option<u16>,
    pub pointer: u16,
    // The most beats, and room for points.
    pub budget: u32,
    pub room: u32,
    pub shown: Shown,
    pub awaited: Option<Awaited>,
}

// Nothing asked for.
pub fn nothing() -> Asked
    ensures { result ≡ nothing }
{
    Asked {
        file: None,
        list: Bounds { low: 0, high: 0 },
        address: None,
        pointer: 0,
        budget: 65535,
        room: 1024,
        shown: Shown {
            registers: false,
            changed: false,
            trace: false,
            hint: false,
        },
        awaited: None,
    }
}

// All of memory lent.
pub fn all_lent(a: Asked) -> Asked
    ensures { result ≡ all_lent a }
{
    let all = Bounds {
        low: 0,
        high: 32768,
    };
    Asked {
        file: Some(all),
        list: all,
        awaited: None,
        ..a
    }
}

// The option that an argument names, of those whose value is the next argument.
#[tactic(auto, unfolding(crate::specs::Arguments::awaited, text::specs::Text::bytes, words::specs::Words::pick))]
fn option_of(s: &[u8]) -> Option<Awaited>
    ensures { result ≡ awaited s.now }
{
    if s == b"--file".as_slice() {
        Some(Awaited::FileRange)
    } else if s == b"--list".as_slice() {
        Some(Awaited::ListRange)
    } else if s == b"--start".as_slice() {
        Some(Awaited::Start)
    } else if s == b"--pointer".as_slice() {
        Some(Awaited::Pointer)
    } else if s == b"--budget".as_slice() {
        Some(Awaited::Budget)
    } else if s == b"--room".as_slice() {
        Some(Awaited::Room)
    } else {
        None
    }
}

// An argument where no value is waited for.
#[tactic(auto, unfolding(crate::specs::Arguments::named, text::specs::Text::bytes, words::specs::Words::pick))]
fn named(a: Asked, s: &[u8]) -> Option<Asked>
    ensures { result ≡ named a s.now }
{
    let mut next = Asked { awaited: None, ..a };
    if s == b"--all".as_slice() {
        next = all_lent(a);
    } else if s == b"--registers".as_slice() {
        next.shown.registers = true;
    } else if s == b"--changed".as_slice() {
        next.shown.changed = true;
    } else if s == b"--trace".as_slice() {
        next.shown.trace = true;
    } else if s == b"--hint".as_slice() {
        next.shown.hint = true;
    } else {
        next.awaited = Some(option_of(s)?);
    }
    Some(next)
}

// One argument more, or none where it cannot be taken.
#[tactic(auto, unfolding(crate::specs::Arguments::taken_by))]
pub fn taken(a: Asked, s: &[u8]) -> Option<Asked>
    ensures { result ≡ taken a s.now }
{
    let Some(awaited) = a.awaited else {
        return named(a, s);
    };
    // What was waited for is there then.
    let a = Asked { awaited: None, ..a };
    Some(match awaited {
        Awaited::FileRange => Asked {
            file: Some(numerals::range(s)?),
            ..a
        },
        Awaited::ListRange => Asked {
            list: numerals::range(s)?,
            ..a
        },
        Awaited::Start => Asked {
            address: Some((numerals::octal(32767, s)? % 65536) as u16),
            ..a
        },
        Awaited::Pointer => Asked {
            pointer: (numerals::octal(4095, s)? % 65536) as u16,
            ..a
        },
        Awaited::Budget => Asked {
            budget: numerals::decimal(65535, s)?,
            ..a
        },
        Awaited::Room => Asked {
            room: numerals::decimal(65536, s)?,
            ..a
        },
    })
}
