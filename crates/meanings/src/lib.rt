// An answer of a run in words, for people, put into a text.
#![tactic(auto)]

ghost use Rattle.std.specs.Prelude.{◌++◌};
ghost use Rattle.text.specs.Text.{octal_address};
ghost use Rattle.text.specs.Adds.{Adds};
ghost use Rattle.meanings.specs.Meanings.{edges, failure, meaning, stopped_at, beats_told, ended_sentence, sentence};

use addresses::DisplayAddress;
use endings::{Ending, EndingNumbers};
use registers::Registers;
use runs::Answer;
use text::Text;
use touches::Why;

// The flags of the two edges, as the registers have them.
#[derive(Clone, Copy)]
struct EdgeFlags {
    vertical: bool,
    horizontal: bool,
}

#[tactic(auto, unfolding(crate::specs::Meanings::edges, words::specs::Words::pick, text::specs::Text::bytes))]
fn put_edges(on: EdgeFlags, text: &mut Text)
    ensures { Adds text.old text.new (edges on.vertical on.horizontal) }
{
    if on.vertical {
        if on.horizontal {
            text.put_all(b"both edges");
        } else {
            text.put_all(b"vertical edge");
        }
    } else {
        text.put_all(b"horizontal edge");
    }
}

// A touch, by what stands before and behind its address.
fn put_touch(before: &[u8], a: DisplayAddress, behind: &[u8], text: &mut Text)
    ensures { Adds text.old text.new (before.now ++ octal_address a.0 ++ behind.now) }
{
    text.put_all(before);
    text.put_address(a.number());
    text.put_all(behind);
}

#[tactic(auto, unfolding(crate::specs::Meanings::failure, text::specs::Text::bytes))]
fn put_full(points: usize, text: &mut Text)
    ensures { Adds text.old text.new (failure Why.Full points) }
{
    text.put_all(b"more than ");
    text.put_decimal((points % 4294967296) as u32);
    text.put_all(b" points");
}

#[tactic(auto, unfolding(crate::specs::Meanings::failure, text::specs::Text::bytes))]
fn put_failure(why: Why, points: usize, text: &mut Text)
    ensures { Adds text.old text.new (failure why points) }
{
    match why {
        Why::Fetch(a) => put_touch(b"the fetch of ", a, b" is not lent", text),
        Why::Store(a) => put_touch(b"the write of ", a, b" is not lent", text),
        Why::Wide(a) => put_touch(b"the word at ", a, b" is above 7777", text),
        Why::Full => put_full(points, text),
    }
}

#[tactic(auto, unfolding(crate::specs::Meanings::meaning, text::specs::Text::bytes))]
fn put_edge_stop(on: EdgeFlags, text: &mut Text)
    ensures { Adds text.old text.new (meaning Ending.EdgeStop 0 on.vertical on.horizontal) }
{
    text.put_all(b"the beam left the screen, ");
    put_edges(on, text)
}

#[tactic(auto, unfolding(crate::specs::Meanings::meaning, text::specs::Text::bytes))]
fn put_meaning(ending: Ending, points: usize, on: EdgeFlags, text: &mut Text)
    ensures { Adds text.old text.new (meaning ending points on.vertical on.horizontal) }
{
    match ending {
        Ending::NotRunning => text.put_all(b"the display was not running"),
        Ending::BudgetSpent => text.put_all(b"no stop word was met"),
        Ending::InternalStop => text.put_all(b"a stop word"),
        Ending::ExternalStop => text.put_all(b"the host asked it to stop"),
        Ending::EdgeStop => put_edge_stop(on, text),
        Ending::UnusableMode => {
            text.put_all(b"data in mode 7 or an unused control character, which cannot be used")
        }
        Ending::Failed(why) => put_failure(why, points, text),
    }
}

// The word that the fence stopped, if the run ended there.
#[tactic(auto, unfolding(text::specs::Text::puts, crate::specs::Meanings::stopped_at, words::specs::Words::pick, text::specs::Text::bytes))]
fn put_stopped(told: EndingNumbers, text: &mut Text)
    ensures { Adds text.old text.new (stopped_at told) }
{
    if endings::at_fence(told.number) {
        text.put_all(b" at ");
        text.put_address(told.address);
    }
}

#[tactic(auto, unfolding(crate::specs::Meanings::beats_told, words::specs::Words::pick, text::specs::Text::bytes))]
fn put_beats(beats: u32, text: &mut Text)
    ensures { Adds text.old text.new (beats_told beats) }
{
    text.put_decimal(beats);
    if beats == 1 {
        text.put_all(b" beat: ");
    } else {
        text.put_all(b" beats: ");
    }
}

#[tactic(auto, unfolding(crate::specs::Meanings::ended_sentence, text::specs::Text::bytes))]
fn put_ended(ending: Ending, beats: u32, points: usize, on: EdgeFlags, text: &mut Text)
    ensures { Adds text.old text.new (ended_sentence ending beats points on.vertical on.horizontal) }
{
    text.put_all(b"ending ");
    let told = endings::ending_numbers(ending);
    text.put_decimal(told.number as u32);
    put_stopped(told, text);
    text.put_all(b" after ");
    put_beats(beats, text);
    put_meaning(ending, points, on, text);
    text.put(b'\n');
}

// The answer of a run, and the registers that it left.
#[tactic(auto, unfolding(crate::specs::Meanings::sentence, text::specs::Text::bytes))]
pub fn put_sentence(answer: Answer, r: Registers, text: &mut Text)
    ensures { Adds text.old text.new (sentence answer r) }
{
    let on = EdgeFlags {
        vertical: r.base.vertical,
        horizontal: r.base.horizontal,
    };
    match answer {
        Answer::Refused(number) => {
            text.put_all(b"refused ");
            text.put_number(number as u32, b'\n');
        }
        Answer::Ended(ending, beats, points) => { put_ended(ending, beats, points, on, text) }
    }
}
