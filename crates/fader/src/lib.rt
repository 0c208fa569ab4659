// Walk-in fader (document 02, Card 3): samples faded in place by the curve's entry of a level.
#![tactic(auto)]

ghost use Rattle.std.specs.Prelude.{◌≡◌, ◌≤◌};
ghost use Rattle.layout.specs.Answers.{says};
ghost use Rattle.whole_numbers.specs.Whole.{floor_div};
ghost use Rattle.fader.specs.Fader.{faded, faded_by, fading, fade_reply, samples_after};
ghost use Rattle.fader.specs.FaderLaws.{FadedWithin, FaderCases};

use crate::curve::entry;
use layout::refusal::Refusal;

mod curve; // curve.rt: the table and its entries

// Levels are 0 to 1,023.
pub const LEVEL_LIMIT: usize = 1023;

pub const LEVELS: usize = LEVEL_LIMIT + 1;

// The shift copies the sign: the quotient is rounded towards minus infinity.
fn divided(product: i32) -> i32
    ensures { result ≡ floor_div product 32768 }
{
    product >> 15
}

fn fade_sample(x: i16, entry: u32) -> i16
    requires { entry ≤ 32768 }
    ensures { result ≡ faded x entry }
{
    divided(x as i32 * entry as i32) as i16
}

fn fade_by(entry: u32, samples: &mut [i16])
    requires { entry ≤ 32768 }
    ensures { samples.new ≡ faded_by entry samples.old }
{
    for x in samples.iter_mut() {
        *x = fade_sample(*x, entry);
    }
}

// The lent samples faded in place by the level's entry; refused, they are left.
#[tactic(auto, using(crate::proofs::FadeLaws::too_high, crate::proofs::FadeLaws::within, crate::proofs::CurveLaws::entry_bound))]
pub fn fade(level: usize, samples: &mut [i16]) -> Result<(), Refusal>
    ensures value { says result ≡ fade_reply (fading level samples.old) }
    ensures samples_after { samples.new ≡ samples_after samples.old (fading level samples.old) }
{
    if level > LEVEL_LIMIT {
        return Err(Refusal::LevelTooHigh);
    }
    fade_by(entry(level), samples);
    Ok(())
}

// A faded sample is a sample again, and no farther from 0; levels 0 and 1,023.
pub fn faded_within()
    ensures { FadedWithin }
{}

// Small cases, computed.
pub fn fader_cases()
    ensures { FaderCases }
{}
