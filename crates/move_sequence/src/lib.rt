// The point list that a run fills, and plain moves, one after another: a line's or a byte's moves that violate nothing, escape nothing and have room for their
// point. Between two of them a run's other tests decide nothing, so they are made in a loop that changes the beam, the points and a count only.
#![tactic(auto)]

ghost use Rattle.std.specs.Prelude.{◌≡◌, ◌+◌, ◌-◌, ◌≤◌, ◌<◌, nat_le, nat_lt, length};
ghost use Rattle.registers.specs.declared.Motion.TheVariants.{Line, Bytes};
ghost use Rattle.registers.specs.Good.{Good};
ghost use Rattle.words.specs.Words.{pick};
ghost use Rattle.beam.specs.DataWords.{beam_at};
ghost use Rattle.move_sequence.specs.PlainMoves.{sequence, leaves};

use addresses::DisplayAddress;
use registers::{Base, ByteMotion, LineMotion, Motion, Registers};

// A point list, lent for a run, and the next place in it. No type says that the place is inside the list or at its end: `put` and `room` ask it.
#[derive(Drop)]
pub struct PointList<'a> {
    pub list: &'a mut [u64],
    pub place: usize,
}

impl<'a> PointList<'a> {
    ghost use Rattle.std.specs.Prelude.{true};
    ghost use Rattle.beam.specs.DataWords.{points};
    ghost use Rattle.move_sequence.specs.Points.{Put};

    // A list before anything is put into it.
    pub fn new(list: &'a mut [u64]) -> PointList<'a>
        ensures same { result.list.ghost_name ≡ list.entry.ghost_name }
        ensures whole { (result.list.now ≡ list.old) × (result.place ≡ 0) }
    {
        PointList { list, place: 0 }
    }

    // How many points it has room for.
    pub fn room(&self) -> usize
        requires { self.now.place ≤ length self.now.list.now }
        ensures { result ≡ length self.now.list.now - self.now.place }
    {
        self.list.len() - self.place
    }

    // Puts the point, if there is one, at the next place, and answers whether there was room.
    #[tactic(auto, unfolding(words::specs::Words::pick))]
    pub fn put(&mut self, lit: Option<u64>) -> bool
        requires { self.old.place ≤ length self.old.list.now }
        ensures { Put self.old self.new lit result }
    {
        match lit {
            None => true,
            Some(_) => {
                if self.place < self.list.len() {
                    self.put_with_room(lit);
                    true
                } else {
                    false
                }
            }
        }
    }

    // The same where there is room, with no test: a turn asks for the room of its point before the beat is made.
    #[tactic(auto, unfolding(words::specs::Words::pick))]
    pub fn put_with_room(&mut self, lit: Option<u64>)
        requires { self.old.place + length (points lit) ≤ length self.old.list.now }
        ensures { Put self.old self.new lit true }
    {
        if let Some(value) = lit {
            self.list[self.place] = value;
            self.place += 1;
        }
    }
}

// What a sequence leaves: the registers, and how many moves of its limit it did not make.
#[derive(Clone, Copy)]
pub struct Sequence {
    pub registers: Registers,
    pub left: u32,
}

fn stays(b: Base, x: u16, y: u16, motion: Motion, left: u32) -> Sequence
    ensures { result ≡ record { registers = record { base = beam_at b x y; motion = motion }; left = left } }
{
    let base = Base { x, y, ..b };
    let registers = Registers { base, motion };
    Sequence { registers, left }
}

// How many of a line's moves may be done before its last, by the limit.
#[tactic(auto, unfolding(words::specs::Words::pick))]
fn end(done: u16, moves: u16, limit: u32) -> u16
    requires { (done < moves) × (moves ≤ 1023) }
    ensures { result ≡ pick (nat_lt limit (moves - 1 - done)) (done + limit) (moves - 1) }
{
    let most = moves - 1;
    if limit < ((most - done) as u32) {
        done + (limit as u16)
    } else {
        most
    }
}

// What is left over of a reach once it has passed twice the moves.
#[tactic(auto, unfolding(words::specs::Words::pick))]
fn left_over(reach: u32, twice: u32) -> u32
    ensures { result ≡ pick (nat_le twice reach) (reach - twice) reach }
{
    if twice <= reach { reach - twice } else { reach }
}

// The plain moves of a line, at most `limit` of them. The upper bits of a coordinate stay, so the loop carries the low ones; and it carries what each axis has
// left over, so that no move asks for a division.
pub fn line_moves(
    b: Base,
    lastword: DisplayAddress,
    l: LineMotion,
    points: &mut PointList<'_>,
    limit: u32,
) -> Sequence
    requires { Good (record { base = b; motion = Line lastword l }) × (points.old.place ≤ length points.old.list.now) }
    ensures same { points.new.list.ghost_name ≡ points.old.list.ghost_name }
    ensures left { leaves result points.new.place points.new.list.now ≡ sequence limit (record { base = b; motion = Line lastword l }) points.old.list.now points.old.place }
{
    let placesx = paper::places(beam::field_x(b));
    let placesy = paper::places(beam::field_y(b));
    let distance = paper::distance(b.scale);
    let last = end(l.done, l.moves, limit);
    let mut lowx = b.x % placesx;
    let mut lowy = b.y % placesy;
    let upperx = b.x - lowx;
    let uppery = b.y - lowy;
    let mut owedx = paper::owed(l.done, l.magx, l.moves);
    let mut owedy = paper::owed(l.done, l.magy, l.moves);
    let twice = 2 * (l.moves as u32);
    for done in l.done..last {
        let reachx = owedx + 2 * (l.magx as u32);
        let reachy = owedy + 2 * (l.magy as u32);
        let travelx = words::pick(twice <= reachx, distance, 0);
        let travely = words::pick(twice <= reachy, distance, 0);
        let nextx = paper::wrapped(placesx, lowx, travelx, l.minusx);
        let nexty = paper::wrapped(placesy, lowy, travely, l.minusy);
        if nextx.violated | nexty.violated {
            let rest = Motion::Line(lastword, LineMotion { done, ..l });
            return stays(
                b,
                upperx + lowx,
                uppery + lowy,
                rest,
                limit - ((done - l.done) as u32),
            );
        }
        let x = upperx + nextx.value;
        let y = uppery + nexty.value;
        if !points.put(beam::lit_at(b, lastword, x, y, l.lit, false)) {
            let rest = Motion::Line(lastword, LineMotion { done, ..l });
            return stays(
                b,
                upperx + lowx,
                uppery + lowy,
                rest,
                limit - ((done - l.done) as u32),
            );
        }
        lowx = nextx.value;
        lowy = nexty.value;
        owedx = left_over(reachx, twice);
        owedy = left_over(reachy, twice);
    }
    let rest = Motion::Line(lastword, LineMotion { done: last, ..l });
    stays(
        b,
        upperx + lowx,
        uppery + lowy,
        rest,
        limit - ((last - l.done) as u32),
    )
}

// The plain moves of increment bytes, at most `limit` of them. A loop of its own: one that took each move of either kind as a struct made as many instructions as a
// turn for every beat (docs/PERFORMANCE.md).
pub fn byte_moves(
    b: Base,
    lastword: DisplayAddress,
    t: ByteMotion,
    points: &mut PointList<'_>,
    limit: u32,
) -> Sequence
    requires { Good (record { base = b; motion = Bytes lastword t }) × (points.old.place ≤ length points.old.list.now) }
    ensures same { points.new.list.ghost_name ≡ points.old.list.ghost_name }
    ensures left { leaves result points.new.place points.new.list.now ≡ sequence limit (record { base = b; motion = Bytes lastword t }) points.old.list.now points.old.place }
{
    let placesx = paper::places(beam::field_x(b));
    let placesy = paper::places(beam::field_y(b));
    let distance = paper::distance(b.scale);
    let mut lowx = b.x % placesx;
    let mut lowy = b.y % placesy;
    let upperx = b.x - lowx;
    let uppery = b.y - lowy;
    let mut bytes = t;
    for made in 0..limit {
        let m = moves::byte_move(lastword, bytes, distance);
        let Motion::Bytes(_, next) = m.motion else {
            return stays(
                b,
                upperx + lowx,
                uppery + lowy,
                Motion::Bytes(lastword, bytes),
                limit - made,
            );
        };
        let nextx = paper::wrapped(placesx, lowx, m.travelx, m.minusx);
        let nexty = paper::wrapped(placesy, lowy, m.travely, m.minusy);
        if nextx.violated | nexty.violated | m.escape {
            return stays(
                b,
                upperx + lowx,
                uppery + lowy,
                Motion::Bytes(lastword, bytes),
                limit - made,
            );
        }
        let x = upperx + nextx.value;
        let y = uppery + nexty.value;
        if !points.put(beam::lit_at(b, lastword, x, y, m.asked, false)) {
            return stays(
                b,
                upperx + lowx,
                uppery + lowy,
                Motion::Bytes(lastword, bytes),
                limit - made,
            );
        }
        lowx = nextx.value;
        lowy = nexty.value;
        bytes = next;
    }
    stays(
        b,
        upperx + lowx,
        uppery + lowy,
        Motion::Bytes(lastword, bytes),
        0,
    )
}
