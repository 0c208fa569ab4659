// Parts and lengths of the recorded input. A part that is not wholly there is empty, a length 0.
#![tactic(auto)]

use layout::fields::inside;
use layout_number_or_zero::word;

pub mod report; // report.rt: what is printed of a case

ghost use Rattle.std.specs.Prelude.{◌<◌, ◌≡◌, replicate};
ghost use Rattle.layout_number_or_zero.specs.NumberOrZero.{word_at};
ghost use Rattle.replay_input.specs.Parts.{part_at};

// More than the recorded cases have.
pub const ROOM: usize = 700000;

pub fn input_room() -> [u8; ROOM]
    ensures { result ≡ replicate 700000 0 }
{
    [0; ROOM]
}

// n bytes from at on.
pub fn part<'a>(s: &'a [u8], at: usize, n: usize) -> &'a [u8]
    ensures { result.now ≡ part_at s.now at n }
{
    if inside(s.len(), at, n) {
        let end = at + n;
        &s[at..end]
    } else {
        &[]
    }
}

// A big-endian u32 that is a length or a place.
pub fn size(s: &[u8], at: usize) -> usize
    ensures value { result ≡ word_at s.now at }
    ensures upper_bound { result < 4294967296 }
{
    word(s, at) as usize
}
