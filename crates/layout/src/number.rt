// The numbers that stand in a slot. The trait is for this crate's reads alone, since its method is for a place that is known to lie in the slot.
ghost use Rattle.std.specs.Prelude.{◌≡◌, ℕ, List, ◌+◌, ◌≤◌, length, get_or};
ghost use Rattle.std.specs.Int.{w32};
ghost use Rattle.std.proofs.Common.{to_z};
ghost use Rattle.layout.specs.Records.{u16_at, u32_at, i16_at};

// A number as it stands in a slot.
pub trait Field: Copy {
    // How many bytes it has.
    ghost SIZE: { ℕ };

    // The number that stands at an offset.
    ghost value_at: { List ℕ → ℕ → Self };

    const SIZE: usize;

    // The same, where it is known to lie in the slot.
    fn value_at(s: &[u8], at: usize) -> Self
        requires { at + SIZE ≤ length s.now }
        ensures { result ≡ value_at s.now at };
}

impl Field for u8 {
    ghost SIZE = { 1 };

    ghost value_at = { λ s at. get_or s at 0 };

    const SIZE: usize = 1;

    fn value_at(s: &[u8], at: usize) -> u8 {
        s[at]
    }
}

impl Field for u16 {
    ghost SIZE = { 2 };

    ghost value_at = { u16_at };

    const SIZE: usize = 2;

    fn value_at(s: &[u8], at: usize) -> u16 {
        u16::from_be_bytes([s[at], s[at + 1]])
    }
}

impl Field for u32 {
    ghost SIZE = { 4 };

    ghost value_at = { u32_at };

    const SIZE: usize = 4;

    fn value_at(s: &[u8], at: usize) -> u32 {
        u32::from_be_bytes([s[at], s[at + 1], s[at + 2], s[at + 3]])
    }
}

impl Field for i16 {
    ghost SIZE = { 2 };

    ghost value_at = { i16_at };

    const SIZE: usize = 2;

    fn value_at(s: &[u8], at: usize) -> i16 {
        u16::value_at(s, at).cast_signed()
    }
}

impl Field for i32 {
    ghost SIZE = { 4 };

    ghost value_at = { λ s at. to_z w32 (u32_at s at) };

    const SIZE: usize = 4;

    fn value_at(s: &[u8], at: usize) -> i32 {
        u32::value_at(s, at).cast_signed()
    }
}
