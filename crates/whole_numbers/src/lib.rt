// Whole numbers that fit 16 bits: their product, and a number brought into them. Every argument is taken, and nothing wraps.
#![tactic(auto)]

ghost use Rattle.std.specs.Prelude.{◌≡◌, ◌*ℤ◌};
ghost use Rattle.whole_numbers.specs.Whole.{clamped, RoundedDown};

// The product of two numbers, whole.
pub fn product(a: i16, b: i16) -> i64
    ensures { result ≡ a *ℤ b }
{
    i64::from(a) * i64::from(b)
}

// The nearest number of 16 bits.
#[tactic(auto, unfolding(crate::specs::Whole::clamped))]
pub fn clamp_i16(z: i64) -> i16
    ensures { result ≡ clamped z }
{
    z.clamp(-32768, 32767) as i16
}

// The quotient of the definitions is the one rounded towards minus infinity.
pub fn rounded_down()
    ensures { RoundedDown }
{}
