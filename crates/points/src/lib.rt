// An entry of the point list taken apart: what `paper::point` put into it.
#![tactic(auto)]

ghost use Rattle.std.specs.Prelude.{◌≡◌};
ghost use Rattle.points.specs.Points.{point_x, point_y, point_intensity, point_blink, point_word, Apart};

// The parts are five functions: one over a place and a width would put the layout into every caller.
pub fn point_x(point: u64) -> u32
    ensures { result ≡ point_x point }
{
    (point % 1024) as u32
}

pub fn point_y(point: u64) -> u32
    ensures { result ≡ point_y point }
{
    (point / 1024 % 1024) as u32
}

pub fn point_intensity(point: u64) -> u32
    ensures { result ≡ point_intensity point }
{
    (point / 1048576 % 8) as u32
}

pub fn point_blink(point: u64) -> u32
    ensures { result ≡ point_blink point }
{
    (point / 8388608 % 2) as u32
}

// The address of the last word of the command that lit it.
pub fn point_word(point: u64) -> u16
    ensures { result ≡ point_word point }
{
    (point / 16777216 % 32768) as u16
}

// Every entry that a run makes is taken apart again into the parts that it was made of. It does nothing: its promise is the theorem, so that a check names it.
pub fn apart()
    ensures { Apart }
{}
