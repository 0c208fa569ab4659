// One ADPCM sample of a half byte (document 02, Card 1).
#![tactic(auto)]

ghost use Rattle.std.specs.Prelude.{◌≡◌, pos};
ghost use Rattle.adpcm_sample.specs.Sample.{signed_half, predicted, scale, sample};

use layout::FrameContext;
use whole_numbers::{clamp_i16, product};

// The shift copies the sign: the quotient is rounded towards minus infinity.
fn prediction(c0: i16, c1: i16, context: FrameContext) -> i64
    ensures { result ≡ predicted c0 c1 context.last context.oldest }
{
    (product(c0, context.last) + product(c1, context.oldest) + 1024) >> 11
}

#[tactic(auto, unfolding(crate::specs::Sample::signed_half))]
fn signed_half(half: u8) -> i64
    ensures { result ≡ signed_half half }
{
    if half < 8 {
        i64::from(half)
    } else {
        i64::from(half) - 16
    }
}

#[tactic(auto, using(crate::proofs::SampleLaws::scale_read))]
fn scale_of(ps: u16) -> i64
    ensures { result ≡ pos (scale ps) }
{
    1 << (ps % 16)
}

// The sample of a half byte, from the pair of coefficients and the context before it. In 64 bits no sum overflows.
pub fn next_sample(c0: i16, c1: i16, context: FrameContext, half: u8) -> i16
    ensures { result ≡ sample c0 c1 context.last context.oldest half context.predictor_and_scale }
{
    clamp_i16(
        prediction(c0, c1, context) + signed_half(half) * scale_of(context.predictor_and_scale),
    )
}
