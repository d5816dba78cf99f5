// The practice program's work, bytes to bytes: lines of octal are read into a memory, a fresh display runs it, and its points and its ending are written.
#![tactic(auto)]

ghost use Rattle.std.specs.Prelude.{◌≡◌, ◌≤◌, length};
ghost use Rattle.text.specs.Text.{filled, whole};
ghost use Rattle.text.specs.Adds.{Adds};
ghost use Rattle.lesson.specs.Lesson.{blank, room, begun, played, told, practice, Enough};

use host::Operation;
use loan::Loan;
use registers::Registers;
use text::Text;

// The memory before any line, and the point list before the run. Arrays of their own functions, so that no other proof has them written out.
#[tactic(auto, unfolding(crate::specs::Lesson::blank))]
fn blank() -> [u16; 32768]
    ensures { result ≡ blank }
{
    [0; 32768]
}

#[tactic(auto, unfolding(crate::specs::Lesson::room))]
fn room() -> [u64; 1024]
    ensures { result ≡ room }
{
    [0; 1024]
}

// A fresh display, started.
#[tactic(auto, unfolding(crate::specs::Lesson::begun))]
fn begun(address: u16) -> Registers
    ensures { result ≡ begun address }
{
    host::operate(registers::fresh(), Operation::Start.into(), address as u32).registers
}

// Runs the memory from an address, and writes what the display lit and how it ended.
fn play(address: u16, memory: &mut [u16; 32768], text: &mut Text)
    ensures written { Adds text.old text.new (told (played address memory.old)) }
    ensures short { length (told (played address memory.old)) ≤ 30745 }
{
    let mut points = room();
    let all = Loan {
        filelow: 0,
        filehigh: 32768,
        listlow: 0,
        listhigh: 32768,
    };
    let ran = calls::call(begun(address), all, memory, &mut points, 65535);
    let answer = ran.answer;
    let told = calls::numbered(answer);
    printout::put_points(&points, told.points, text);
    printout::put_ending(told.ending, told.beats, text);
}

// What the practice program writes for what it reads, put into a text.
fn put_answer(input: &[u8], text: &mut Text)
    ensures written { Adds text.old text.new (practice input.now) }
    ensures short { length (practice input.now) ≤ 30745 }
{
    let mut memory = blank();
    let count = lines::read(input, &mut memory);
    if (1 <= count) & (lines::LINE * count == input.len()) {
        play(lines::start(input), &mut memory, text);
    } else {
        printout::put_bad_line((count + 1) as u32, text);
    }
}

// The same at the start of a list that has room for the longest answer, 1,024 points of at most 30 bytes each and the last line of at most 25; answered is how
// many bytes it has.
pub fn practice(input: &[u8], list: &mut [u8; 30745]) -> usize
    ensures { filled result list.new ≡ whole (practice input.now) list.old }
{
    let mut text = Text::new(list);
    put_answer(input, &mut text);
    text.place
}

// What comes behind the first 45,057 bytes changes nothing. It does nothing: its promise is the theorem, so that a check names it.
pub fn enough()
    ensures { Enough }
{}
