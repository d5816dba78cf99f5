// A motion as numbers: the last places of a row of registers, its kind and behind it its own numbers.
#![tactic(auto)]

ghost use Rattle.std.specs.Prelude.{◌≡◌, ◌+◌, ◌≤◌};
ghost use Rattle.std.proofs.lemmas.List.Edits.{sets};
ghost use Rattle.motion_numbers.specs.MotionNumbers.{STAGE, line_flags, used, flags_fit, stage_fits, motion_fits, line_of, bytes_of, stage_of, character_of, motion_of};
ghost use Rattle.motion_numbers.specs.MotionNumbers.{line_numbers, bytes_numbers, stage_numbers, laid};

use addresses::DisplayAddress;
use registers::{ByteMotion, CharacterMotion, LineMotion, Motion, Stage};

// How many numbers a row of registers has. Its places are numbers and no enum, and so are the kinds and stages in it, because the C interface and the replay format
// have the row as an array.
pub const ROW: usize = 44;

// The place of the kind of motion, from 0: 0 nothing, 1 a line, 2 bytes, 3 a character.
pub const KIND: usize = 30;

// The numbers of a line and of bytes, counted from the number before them: that is the kind of motion, or of a routine word the stage.
pub const LINE_MINUS_Y: usize = 1;

pub const LINE_MINUS_X: usize = 2;

pub const LINE_MAGNITUDE_Y: usize = 3;

pub const LINE_MAGNITUDE_X: usize = 4;

pub const LINE_MOVES: usize = 5;

pub const LINE_DONE: usize = 6;

pub const LINE_LIT: usize = 7;

pub const LINE_ESCAPE: usize = 8;

pub const LINE_LAST_WORD: usize = 9;

pub const BYTES_WORD: usize = 1;

pub const BYTES_SIDE: usize = 2;

pub const BYTES_MOVES_LEFT: usize = 3;

pub const BYTES_LAST_WORD: usize = 4;

// The places of a character's numbers. Last its stage, from 0: the table word, a routine word, increments, short vectors; behind it the stage's own.
pub const CHARACTER_WORD: usize = KIND + 1;

pub const CHARACTER_SIZE: usize = KIND + 2;

pub const CHARACTER_SIDE: usize = KIND + 3;

pub const STAGE: usize = KIND + 4;

// The places of the numbers of a routine: its kind, and the address of the next word.
pub const ROUTINE_KIND: usize = STAGE + 1;

pub const ROUTINE_NEXT: usize = STAGE + 2;

// The place that the numbers of a line or of bytes stand behind: the kind's or the stage's, and none behind these, so that all of them are in the row.
#[derive(Clone, Copy)]
struct Before {
    place: usize,
    ghost inside: { place ≤ STAGE },
}

const BEHIND_KIND: Before = Before { place: KIND };

const BEHIND_STAGE: Before = Before { place: STAGE };

impl Before {
    // Whether the flags of a line are 0 or 1.
    fn line_fits(self, row: [u16; ROW]) -> bool
        ensures { result ≡ flags_fit row (line_flags self.place) }
    {
        (row[self.place + LINE_MINUS_Y] <= 1)
            & (row[self.place + LINE_MINUS_X] <= 1)
            & (row[self.place + LINE_LIT] <= 1)
            & (row[self.place + LINE_ESCAPE] <= 1)
    }

    fn line_of(self, row: [u16; ROW]) -> LineMotion
        ensures { result ≡ line_of row self.place }
    {
        LineMotion {
            minusy: row[self.place + LINE_MINUS_Y] == 1,
            minusx: row[self.place + LINE_MINUS_X] == 1,
            magy: row[self.place + LINE_MAGNITUDE_Y],
            magx: row[self.place + LINE_MAGNITUDE_X],
            moves: row[self.place + LINE_MOVES],
            done: row[self.place + LINE_DONE],
            lit: row[self.place + LINE_LIT] == 1,
            escape: row[self.place + LINE_ESCAPE] == 1,
        }
    }

    fn bytes_of(self, row: [u16; ROW]) -> ByteMotion
        ensures { result ≡ bytes_of row self.place }
    {
        ByteMotion {
            word: row[self.place + BYTES_WORD],
            right: row[self.place + BYTES_SIDE] == 1,
            moves: row[self.place + BYTES_MOVES_LEFT],
        }
    }

    // Lays the numbers of a line into a row, behind the number before them.
    fn lay_line(self, lastword: DisplayAddress, l: LineMotion, row: &mut [u16; ROW])
        ensures { row.new ≡ sets row.old (self.place + 1) (line_numbers lastword l) }
    {
        row[self.place + LINE_MINUS_Y] = l.minusy as u16;
        row[self.place + LINE_MINUS_X] = l.minusx as u16;
        row[self.place + LINE_MAGNITUDE_Y] = l.magy;
        row[self.place + LINE_MAGNITUDE_X] = l.magx;
        row[self.place + LINE_MOVES] = l.moves;
        row[self.place + LINE_DONE] = l.done;
        row[self.place + LINE_LIT] = l.lit as u16;
        row[self.place + LINE_ESCAPE] = l.escape as u16;
        row[self.place + LINE_LAST_WORD] = lastword.number();
    }

    // The same of bytes.
    fn lay_bytes(self, lastword: DisplayAddress, t: ByteMotion, row: &mut [u16; ROW])
        ensures { row.new ≡ sets row.old (self.place + 1) (bytes_numbers lastword t) }
    {
        row[self.place + BYTES_WORD] = t.word;
        row[self.place + BYTES_SIDE] = t.right as u16;
        row[self.place + BYTES_MOVES_LEFT] = t.moves;
        row[self.place + BYTES_LAST_WORD] = lastword.number();
    }
}

// How many numbers of a row a kind of motion uses, with its stage.
#[tactic(auto, unfolding(crate::specs::MotionNumbers::used, crate::specs::MotionNumbers::used_at, words::specs::Words::pick))]
pub fn used(kind: u16, stage: u16) -> usize
    ensures { result ≡ used kind stage }
{
    match kind {
        1 => KIND + LINE_LAST_WORD + 1,
        2 => KIND + BYTES_LAST_WORD + 1,
        3 => match stage {
            1 => ROUTINE_NEXT + 1,
            2 => STAGE + BYTES_LAST_WORD + 1,
            3 => STAGE + LINE_LAST_WORD + 1,
            _ => STAGE + 1,
        },
        _ => KIND + 1,
    }
}

// Whether the stage is one of the four, and the flags of that stage are 0 or 1.
#[tactic(auto, unfolding(crate::specs::MotionNumbers::stage_fits, words::specs::Words::pick))]
fn stage_fits(row: [u16; ROW]) -> bool
    ensures { result ≡ stage_fits row }
{
    match row[STAGE] {
        0 => true,
        1 => row[ROUTINE_KIND] <= 1,
        2 => row[STAGE + BYTES_SIDE] <= 1,
        3 => BEHIND_STAGE.line_fits(row),
        _ => false,
    }
}

// Whether the kind is one of the four, and the flags of its motion are 0 or 1.
#[tactic(auto, unfolding(crate::specs::MotionNumbers::motion_fits, words::specs::Words::pick))]
pub fn motion_fits(row: [u16; ROW]) -> bool
    ensures { result ≡ motion_fits row }
{
    match row[KIND] {
        0 => true,
        1 => BEHIND_KIND.line_fits(row),
        2 => row[KIND + BYTES_SIDE] <= 1,
        3 => (row[CHARACTER_SIZE] <= 1) & (row[CHARACTER_SIDE] <= 1) & stage_fits(row),
        _ => false,
    }
}

// The stage of a row's character: one that there is not is that of the table word.
#[tactic(auto, unfolding(crate::specs::MotionNumbers::stage_of, words::specs::Words::pick))]
fn stage_of(row: [u16; ROW]) -> Stage
    ensures { result ≡ stage_of row }
{
    match row[STAGE] {
        1 => Stage::Routine(
            row[ROUTINE_KIND] == 1,
            DisplayAddress::given(row[ROUTINE_NEXT]),
        ),
        2 => Stage::Increments(
            DisplayAddress::given(row[STAGE + BYTES_LAST_WORD]),
            BEHIND_STAGE.bytes_of(row),
        ),
        3 => Stage::Short(
            DisplayAddress::given(row[STAGE + LINE_LAST_WORD]),
            BEHIND_STAGE.line_of(row),
        ),
        _ => Stage::Table,
    }
}

fn character_of(row: [u16; ROW]) -> CharacterMotion
    ensures { result ≡ character_of row }
{
    let stage = stage_of(row);
    CharacterMotion {
        word: row[CHARACTER_WORD],
        seven: row[CHARACTER_SIZE] == 1,
        right: row[CHARACTER_SIDE] == 1,
        stage,
    }
}

// The motion of a row: a kind that there is not gives none.
#[tactic(auto, unfolding(crate::specs::MotionNumbers::motion_of, words::specs::Words::pick))]
pub fn motion_of(row: [u16; ROW]) -> Motion
    ensures { result ≡ motion_of row }
{
    match row[KIND] {
        1 => Motion::Line(
            DisplayAddress::given(row[KIND + LINE_LAST_WORD]),
            BEHIND_KIND.line_of(row),
        ),
        2 => Motion::Bytes(
            DisplayAddress::given(row[KIND + BYTES_LAST_WORD]),
            BEHIND_KIND.bytes_of(row),
        ),
        3 => Motion::Character(character_of(row)),
        _ => Motion::Nothing,
    }
}

// Lays a stage and its numbers.
#[tactic(auto, unfolding(crate::specs::MotionNumbers::stage_numbers))]
fn lay_stage(stage: Stage, row: &mut [u16; ROW])
    ensures { row.new ≡ sets row.old STAGE (stage_numbers stage) }
{
    match stage {
        Stage::Table => {
            row[STAGE] = 0;
        }
        Stage::Routine(short, next) => {
            row[STAGE] = 1;
            row[ROUTINE_KIND] = short as u16;
            row[ROUTINE_NEXT] = next.number();
        }
        Stage::Increments(from, t) => {
            row[STAGE] = 2;
            BEHIND_STAGE.lay_bytes(from, t, row);
        }
        Stage::Short(from, l) => {
            row[STAGE] = 3;
            BEHIND_STAGE.lay_line(from, l, row);
        }
    }
}

// Lays the kind of a motion and its numbers into a row, and leaves every other place as it was.
#[tactic(auto, unfolding(crate::specs::MotionNumbers::laid, crate::specs::MotionNumbers::motion_numbers))]
pub fn lay(motion: Motion, row: &mut [u16; ROW])
    ensures { row.new ≡ laid motion row.old }
{
    match motion {
        Motion::Nothing => {
            row[KIND] = 0;
        }
        Motion::Line(lastword, l) => {
            row[KIND] = 1;
            BEHIND_KIND.lay_line(lastword, l, row);
        }
        Motion::Bytes(lastword, t) => {
            row[KIND] = 2;
            BEHIND_KIND.lay_bytes(lastword, t, row);
        }
        Motion::Character(c) => {
            let stage = c.stage;
            row[KIND] = 3;
            row[CHARACTER_WORD] = c.word;
            row[CHARACTER_SIZE] = c.seven as u16;
            row[CHARACTER_SIDE] = c.right as u16;
            lay_stage(stage, row);
        }
    }
}
