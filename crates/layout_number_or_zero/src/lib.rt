// Big-endian numbers at an offset of some bytes. A number that is not wholly there reads as 0.
// One function for each width: a generic one would take a trait with an impl for each of the four definitions, and be no shorter than these.
#![tactic(auto)]

ghost use Rattle.std.specs.Prelude.{◌≡◌};
ghost use Rattle.layout_number_or_zero.specs.NumberOrZero.{half_at, signed_at, word_at, long_at};

use layout::fields::{inside, read};

// A u16.
pub fn half(s: &[u8], at: usize) -> u16
    ensures { result ≡ half_at s.now at }
{
    read::<u16>(s, at).unwrap_or(0)
}

// An i16.
pub fn signed(s: &[u8], at: usize) -> i16
    ensures { result ≡ signed_at s.now at }
{
    read::<i16>(s, at).unwrap_or(0)
}

// A u32.
pub fn word(s: &[u8], at: usize) -> u32
    ensures { result ≡ word_at s.now at }
{
    read::<u32>(s, at).unwrap_or(0)
}

// A u64, high half first.
pub fn long(s: &[u8], at: usize) -> u64
    ensures { result ≡ long_at s.now at }
{
    if inside(s.len(), at, 8) {
        return word(s, at) as u64 * 4294967296 + word(s, at + 4) as u64;
    }
    0
}
