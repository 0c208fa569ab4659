// What a CHAN line says.
ghost use Rattle.std.specs.Prelude.{◌≡◌};
ghost use Rattle.script_lines.specs.Lines.{coefficients_from, says_coefficients, context_of, says_context, data_word, channel_block, says_channel};

use crate::lines::{number_at, says_number, says_signed, signed_at};
use layout::FrameContext;
use script_words::hex::is_data;
use script_words::text::word;
use writer::ChannelBlock;

// c0 .. c15
fn coefficients_of(line: &[u8]) -> [i16; 16]
    ensures { result ≡ coefficients_from line.now 7 16 }
{
    let mut values = [0i16; 16];
    for i in 0..16 {
        values[i] = signed_at(line, 7 + i);
    }
    values
}

fn says_coefficients(line: &[u8]) -> bool
    ensures { result ≡ says_coefficients line.now 7 16 }
{
    for i in 7..23 {
        if !says_signed(line, i) {
            return false;
        }
    }
    true
}

// CHAN's data, as text.
pub fn data_word<'a>(line: &'a [u8]) -> &'a [u8]
    ensures { result.now ≡ data_word line.now }
{
    word(line, 23)
}

// ps s0 s1
fn context_of(line: &[u8]) -> FrameContext
    ensures { result ≡ context_of line.now }
{
    FrameContext {
        predictor_and_scale: number_at(line, 4, u16::MAX as u64) as u16,
        last: signed_at(line, 5),
        oldest: signed_at(line, 6),
    }
}

fn says_context(line: &[u8]) -> bool
    ensures { result ≡ says_context line.now }
{
    says_number(line, 4, u16::MAX as u64) && says_signed(line, 5) && says_signed(line, 6)
}

// CHAN rate length gain ps s0 s1 c0 .. c15 HEX
pub fn channel_line(line: &[u8]) -> ChannelBlock
    ensures { result ≡ channel_block line.now }
{
    ChannelBlock {
        rate: number_at(line, 1, u32::MAX as u64) as u32,
        length: number_at(line, 2, u64::MAX) as usize,
        coefficients: coefficients_of(line),
        gain: number_at(line, 3, u16::MAX as u64) as u16,
        context: context_of(line),
    }
}

pub fn says_channel(line: &[u8]) -> bool
    ensures { result ≡ says_channel line.now }
{
    says_number(line, 1, u32::MAX as u64)
        & says_number(line, 2, u64::MAX)
        & says_number(line, 3, u16::MAX as u64)
        & says_context(line)
        & says_coefficients(line)
        & is_data(data_word(line))
}
