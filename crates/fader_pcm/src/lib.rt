// Samples as bytes, 16 bits little-endian, faded in place (document 02, Card 3).
#![tactic(auto)]

ghost use Rattle.std.specs.Prelude.{◌/◌, ◌≤◌, min, ◌≡◌, length};
ghost use Rattle.layout.specs.Answers.{says};
ghost use Rattle.fader.specs.Fader.{level_limit, fade_reply};
ghost use Rattle.fader_pcm.specs.FadedPcm.{pcm_fading, bytes_after, PortionsFaded, first_faded};

use fader::fade;
use layout::refusal::Refusal;
use pcm_bytes::{get_pcm, put_pcm};

// So many samples at a time.
const PORTION: usize = 4096;

fn room() -> [i16; PORTION]
    ensures { length result ≡ 4096 }
{
    [0; PORTION]
}

// The first samples of the bytes faded, as many as the lent places hold; how many. The level is one that is not refused.
fn fade_portion(level: usize, bytes: &mut [u8], samples: &mut [i16]) -> usize
    requires { level ≤ level_limit }
    ensures value { result ≡ min (length samples.old) (length bytes.old / 2) }
    ensures bytes_after { bytes.new ≡ first_faded level result bytes.old }
    ensures samples_len_unchanged { length samples.new ≡ length samples.old }
{
    let n = get_pcm(bytes, samples);
    let _ = fade(level, &mut samples[..n]);
    put_pcm(&samples[..n], bytes)
}

// All of them, portion by portion.
fn fade_within(level: usize, bytes: &mut [u8])
    requires { level ≤ level_limit }
    ensures { bytes.new ≡ bytes_after bytes.old (pcm_fading level bytes.old) }
{
    let mut samples = room();
    let mut at: usize = 0;
    // A loop: each portion says how many samples it has, and is cut from what is left.
    loop {
        let n = fade_portion(level, &mut bytes[at..], &mut samples);
        if n == 0 {
            return;
        }
        at += 2 * n;
    }
}

// Refused, the lent bytes are left; an odd last byte is left always.
#[tactic(auto, using(fader::proofs::FadeLaws::same_reply, fader::proofs::FadeLaws::reply_high, fader::proofs::FadeLaws::reply_low, fader::proofs::FadeLaws::too_high, layout::proofs::FieldLaws::passed_on))]
pub fn fade_pcm(level: usize, bytes: &mut [u8]) -> Result<(), Refusal>
    ensures value { says result ≡ fade_reply (pcm_fading level bytes.old) }
    ensures bytes_after { bytes.new ≡ bytes_after bytes.old (pcm_fading level bytes.old) }
{
    fade(level, &mut [])?;
    fade_within(level, bytes);
    Ok(())
}

// Portions of whole samples come to the whole.
pub fn portions_faded()
    ensures { PortionsFaded }
{}
