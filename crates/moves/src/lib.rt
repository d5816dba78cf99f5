// Move beats: what a line, a byte or a character does next, and the move made.
#![tactic(auto)]

ghost use Rattle.std.specs.Prelude.{◌≡◌, ◌%◌};
ghost use Rattle.moves.specs.DataWords.{line_next, line_move, byte_next, leftward, rightward, upward, downward, byte_move, next_move, displaced};
ghost use Rattle.moves.specs.DataWords.{at_stage, after_character, after_routine_word, routine_next, routine_move, character_next};

use addresses::DisplayAddress;
use beam::Outcome;
use registers::{Base, ByteMotion, CharacterMotion, LineMotion, Motion, Stage};

// One move: how far each axis goes, whether a point is asked for, the motion after it and whether the command escapes with it; and the address of the command's
// last word. A move that continues belongs to a vector continue.
#[derive(Clone, Copy)]
pub struct Move {
    pub motion: Motion,
    pub travelx: u8,
    pub travely: u8,
    pub minusx: bool,
    pub minusy: bool,
    pub asked: bool,
    pub escape: bool,
    pub continues: bool,
    pub lastword: DisplayAddress,
}

// What the registers do next: no motion, a move, or a fetch for an unfinished character: its table word, or the word of its routine at an address.
#[derive(Clone, Copy)]
pub enum Moving {
    Still,
    Going(Move),
    Looks(CharacterMotion),
    Reads(CharacterMotion, bool, DisplayAddress),
}

// A line after one more move.
#[tactic(auto, unfolding(crate::specs::DataWords::line_next, words::specs::Words::pick))]
fn line_next(lastword: DisplayAddress, l: LineMotion, continues: bool) -> Motion
    ensures { result ≡ line_next lastword l continues }
{
    // In 32 bits, where the sum fits whatever arrives.
    if (l.done as u32) + 1 < (l.moves as u32) {
        Motion::Line(
            lastword,
            LineMotion {
                done: l.done + 1,
                ..l
            },
        )
    } else if continues {
        Motion::Line(lastword, LineMotion { done: 0, ..l })
    } else {
        Motion::Nothing
    }
}

#[tactic(auto, unfolding(crate::specs::DataWords::line_move))]
fn line_move(lastword: DisplayAddress, l: LineMotion, distance: u8, continues: bool) -> Move
    ensures { result ≡ line_move lastword l distance continues }
{
    let motion = line_next(lastword, l, continues);
    let travelx = paper::travel(l.done, l.magx, l.moves, distance);
    let travely = paper::travel(l.done, l.magy, l.moves, distance);
    let last = (l.moves as u32) <= (l.done as u32) + 1;
    Move {
        motion,
        travelx,
        travely,
        minusx: l.minusx,
        minusy: l.minusy,
        asked: l.lit,
        escape: l.escape & (last | continues),
        continues,
        lastword,
    }
}

// Increment bytes after one more move.
#[tactic(auto, unfolding(crate::specs::DataWords::byte_next, words::specs::Words::pick))]
fn byte_next(lastword: DisplayAddress, t: ByteMotion, escape: bool) -> Motion
    ensures { result ≡ byte_next lastword t escape }
{
    if 1 < t.moves {
        Motion::Bytes(
            lastword,
            ByteMotion {
                moves: t.moves - 1,
                ..t
            },
        )
    } else if t.right | escape {
        Motion::Nothing
    } else {
        let moves = registers::moves_asked(registers::byte_at(t.word, true));
        Motion::Bytes(
            lastword,
            ByteMotion {
                moves,
                right: true,
                ..t
            },
        )
    }
}

// Which ways a direction goes.
#[derive(Clone, Copy)]
struct Direction {
    right: bool,
    up: bool,
    left: bool,
    down: bool,
}

// A bit for each way that a direction can go.
const RIGHT: u8 = 1;

const UP: u8 = 2;

const LEFT: u8 = 4;

const DOWN: u8 = 8;

// The directions 0 to 7 of an increment byte, counterclockwise from right (01, Increment; manual 2.2.2).
const DIRECTIONS: [u8; 8] = [
    RIGHT, // 0 →
    RIGHT | UP, // 1 ↗
    UP, // 2 ↑
    LEFT | UP, // 3 ↖
    LEFT, // 4 ←
    LEFT | DOWN, // 5 ↙
    DOWN, // 6 ↓
    RIGHT | DOWN, // 7 ↘
];

// The direction of a byte: the row that its last three bits tell.
#[tactic(auto, unfolding(words::specs::Words::pick, words::proofs::Tables::values))]
fn directed(byte: u16) -> Direction
    ensures { result ≡ record { right = rightward (byte % 8); up = upward (byte % 8); left = leftward (byte % 8); down = downward (byte % 8) } }
{
    let row = DIRECTIONS[(byte % 8) as usize];
    Direction {
        right: row & RIGHT != 0,
        up: row & UP != 0,
        left: row & LEFT != 0,
        down: row & DOWN != 0,
    }
}

#[tactic(auto, unfolding(crate::specs::DataWords::byte_move))]
pub fn byte_move(lastword: DisplayAddress, t: ByteMotion, distance: u8) -> Move
    ensures { result ≡ byte_move lastword t distance }
{
    let byte = registers::byte_at(t.word, t.right);
    let escape = registers::escapes(byte);
    let motion = byte_next(lastword, t, escape);
    let direction = directed(byte);
    let travelx = words::pick(direction.left | direction.right, distance, 0);
    let travely = words::pick(direction.up | direction.down, distance, 0);
    Move {
        motion,
        travelx,
        travely,
        minusx: direction.left,
        minusy: direction.down,
        asked: byte / 32 % 2 == 1,
        escape,
        continues: false,
        lastword,
    }
}

// A character at another stage.
pub fn at_stage(c: CharacterMotion, stage: Stage) -> Motion
    ensures { result ≡ at_stage c stage }
{
    Motion::Character(CharacterMotion { stage, ..c })
}

// The motion behind a character: the right one behind the left one of two, or none.
#[tactic(auto, unfolding(crate::specs::DataWords::after_character, words::specs::Words::pick))]
pub fn after_character(c: CharacterMotion) -> Motion
    ensures { result ≡ after_character c }
{
    if c.seven | c.right {
        Motion::Nothing
    } else {
        Motion::Character(CharacterMotion {
            right: true,
            stage: Stage::Table,
            ..c
        })
    }
}

// The motion behind a routine word: an escape ends the character, else the next word of the routine follows.
#[tactic(auto, unfolding(crate::specs::DataWords::after_routine_word, words::specs::Words::pick))]
pub fn after_routine_word(
    c: CharacterMotion,
    short: bool,
    from: DisplayAddress,
    escape: bool,
) -> Motion
    ensures { result ≡ after_routine_word c short from escape }
{
    if escape {
        after_character(c)
    } else {
        at_stage(c, Stage::Routine(short, from.after(1)))
    }
}

// The motion behind a move of a routine word: its other moves, if there are any.
#[tactic(auto, unfolding(crate::specs::DataWords::routine_next))]
fn routine_next(
    c: CharacterMotion,
    short: bool,
    from: DisplayAddress,
    escape: bool,
    after: Motion,
) -> Motion
    ensures { result ≡ routine_next c short from escape after }
{
    match after {
        Motion::Nothing => after_routine_word(c, short, from, escape),
        Motion::Line(lastword, l) => at_stage(c, Stage::Short(lastword, l)),
        Motion::Bytes(lastword, t) => at_stage(c, Stage::Increments(lastword, t)),
        Motion::Character(_) => after_routine_word(c, short, from, escape),
    }
}

// A move of a routine word. Its escape ends the character and not the mode.
#[tactic(auto, unfolding(crate::specs::DataWords::routine_move))]
fn routine_move(c: CharacterMotion, short: bool, m: Move) -> Move
    ensures { result ≡ routine_move c short m }
{
    let after = m.motion;
    let motion = routine_next(c, short, m.lastword, m.escape, after);
    let lastword = m.lastword;
    Move {
        motion,
        lastword,
        escape: false,
        ..m
    }
}

// What an unfinished character does next.
#[tactic(auto, unfolding(crate::specs::DataWords::character_next))]
fn character_next(c: CharacterMotion, distance: u8) -> Moving
    ensures { result ≡ character_next c distance c.stage }
{
    let stage = c.stage;
    match stage {
        Stage::Table => Moving::Looks(c),
        Stage::Routine(short, next) => Moving::Reads(c, short, next),
        Stage::Increments(from, t) => {
            Moving::Going(routine_move(c, false, byte_move(from, t, distance)))
        }
        Stage::Short(from, l) => {
            Moving::Going(routine_move(c, true, line_move(from, l, distance, false)))
        }
    }
}

// The next move of a motion.
#[tactic(auto, unfolding(crate::specs::DataWords::next_move))]
pub fn next_move(m: Motion, mode: u8, scale: u8) -> Moving
    ensures { result ≡ next_move m mode scale }
{
    match m {
        Motion::Nothing => Moving::Still,
        Motion::Line(lastword, l) => {
            Moving::Going(line_move(lastword, l, paper::distance(scale), mode == 3))
        }
        Motion::Bytes(lastword, t) => {
            Moving::Going(byte_move(lastword, t, paper::distance(scale)))
        }
        Motion::Character(c) => character_next(c, paper::distance(scale)),
    }
}

// A move made. A vector continue ends, still, where it would violate.
#[tactic(auto, unfolding(crate::specs::DataWords::displaced, words::specs::Words::pick))]
pub fn displaced(b: Base, m: Move) -> Outcome
    ensures { result ≡ displaced b m }
{
    let x = paper::moved(beam::field_x(b), b.x, m.travelx, m.minusx);
    let y = paper::moved(beam::field_y(b), b.y, m.travely, m.minusy);
    if m.continues & (x.violated | y.violated) {
        beam::still_end(b, m.escape)
    } else {
        let motion = m.motion;
        beam::arrived(
            b,
            motion,
            m.lastword,
            x,
            y,
            m.asked,
            m.escape & !m.continues,
        )
    }
}
