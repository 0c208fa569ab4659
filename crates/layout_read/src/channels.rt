// A channel of the file header, 56 bytes, and its format, read at an offset of a slot.
ghost use Rattle.std.specs.Prelude.{◌≡◌, ◌+◌};
ghost use Rattle.layout.specs.Records.{field, i16s, read_channel};
ghost use Rattle.layout.specs.Answers.{says};

use crate::context::read_context;
use layout::fields::read;
use layout::refusal::Refusal;
use layout::{Channel, DspFormat};

// The 16 coefficients from an offset on.
pub fn read_coefficients(s: &[u8], at: usize) -> Result<[i16; 16], Refusal>
    ensures { says result ≡ field s.now (at + 32) (i16s s.now at 16) }
{
    if s.len() < at {
        return Err(Refusal::SlotEndsEarly);
    }
    let mut coefficients = [0; 16];
    for (i, coefficient) in coefficients.iter_mut().enumerate() {
        *coefficient = read(s, at + i * 2)?;
    }
    Ok(coefficients)
}

// The channel at an offset. A bad format is refused before the fields after it are looked for.
pub fn read_channel(s: &[u8], at: usize) -> Result<Channel, Refusal>
    ensures { says result ≡ read_channel s.now at }
{
    let looping: u16 = read(s, at)?;
    let number: u16 = read(s, at + 2)?;
    let format = DspFormat::try_from(number)?;
    let loop_address = read(s, at + 4)?;
    let end_address = read(s, at + 8)?;
    let current_address = read(s, at + 12)?;
    let coefficients = read_coefficients(s, at + 16)?;
    let gain = read(s, at + 48)?;
    let context = read_context(s, at + 50)?;
    Ok(Channel {
        looping: looping != 0,
        format,
        loop_address,
        end_address,
        current_address,
        coefficients,
        gain,
        context,
    })
}
