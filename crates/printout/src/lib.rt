// The lines that the practice program writes, put into a text: the lit points, how the run ended, which line of the input is bad.
#![tactic(auto)]

ghost use Rattle.text.specs.Adds.{Adds};
ghost use Rattle.printout.specs.Printout.{point_line, point_lines, ending_line, bad_line};

use text::Text;

pub fn put_point(point: u64, text: &mut Text)
    ensures { Adds text.old text.new (point_line point) }
{
    text.put_number(points::point_x(point), b' ');
    text.put_number(points::point_y(point), b' ');
    text.put_number(points::point_intensity(point), b' ');
    text.put_number(points::point_blink(point), b' ');
    text.put_address(points::point_word(point));
    text.put(b'\n');
}

// The first points of a list, as many as are counted.
pub fn put_points(points: &[u64], count: usize, text: &mut Text)
    ensures { Adds text.old text.new (point_lines count points.now) }
{
    for point in points.iter().take(count) {
        put_point(*point, text);
    }
}

pub fn put_ending(ending: u8, beats: u32, text: &mut Text)
    ensures { Adds text.old text.new (ending_line ending beats) }
{
    text.put_all(b"ending ");
    text.put_decimal(ending as u32);
    text.put_all(b" beats ");
    text.put_number(beats, b'\n');
}

pub fn put_bad_line(number: u32, text: &mut Text)
    ensures { Adds text.old text.new (bad_line number) }
{
    text.put_all(b"bad line ");
    text.put_number(number, b'\n');
}
