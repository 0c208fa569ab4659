// Hearing the block (document 02, Card 1): a channel's blocks decoded to 16-bit samples, one a call, as decode.rs does it.
#![tactic(auto)]

ghost use Rattle.std.specs.Prelude.{◌≡◌, length};
ghost use Rattle.layout.specs.Answers.{says};
ghost use Rattle.reader.specs.OpeningAndReading.{Readable};
ghost use Rattle.reader_decode.specs.Decoding.{new_decoder, not_adpcm, block_due, decoding, decoded_in, decode_answer, decoder_after, samples_after};

use adpcm_block::decode_block;
use layout::refusal::Refusal;
use layout::{DspFormat, FrameContext};
use layout_sizes::adpcm_samples;
use reader::HpsReader;
use reader_block::{block_data, channel_of, read_block};

// The position of the next block, and what passes on: the context after the last sample.
#[derive(Clone, Copy)]
pub struct Decoder {
    pub position: usize,
    pub context: FrameContext,
}

#[derive(Clone, Copy)]
pub struct DecodeCall {
    // How many places were filled, or none past the last block.
    pub answer: Result<Option<usize>, Refusal>,
    pub decoder: Decoder,
}

// Before the first block, with a context of zeros.
pub fn new_decoder() -> Decoder
    ensures { result ≡ new_decoder }
{
    Decoder {
        position: 0,
        context: FrameContext {
            predictor_and_scale: 0,
            last: 0,
            oldest: 0,
        },
    }
}

fn not_adpcm(format: DspFormat) -> bool
    ensures { result ≡ not_adpcm format }
{
    format != DspFormat::Adpcm
}

// What is due before a block is read: 6, 30 or the end. Whether there is a block.
fn block_due(
    count: usize,
    channel: usize,
    format: DspFormat,
    blocks: usize,
    position: usize,
) -> Result<bool, Refusal>
    ensures { says result ≡ block_due count channel format blocks position }
{
    let other = not_adpcm(format);
    if count <= channel {
        return Err(Refusal::NoSuchChannel);
    }
    if other {
        return Err(Refusal::NotAdpcm);
    }
    if blocks <= position {
        return Ok(false);
    }
    Ok(true)
}

// The block at the decoder's position, decoded: how many places it fills, and the decoder after it.
fn decode_next(
    s: &[u8],
    r: HpsReader,
    channel: usize,
    decoder: Decoder,
    samples: &mut [i16],
) -> Result<Option<(usize, Decoder)>, Refusal>
    requires { Readable r }
    ensures value { says result ≡ decoded_in (decoding s.now r channel decoder.position (length samples.old)) }
    ensures samples_after { samples.new
        ≡ samples_after samples.old (decoding s.now r channel decoder.position (length samples.old)) }
{
    let position = decoder.position;
    let side = channel_of(r.channels, channel);
    let due = block_due(r.count, channel, side.format, r.blocks, position)?;
    if !due {
        return Ok(None);
    }
    let call = read_block(s, r, channel, position);
    let answer = call.answer?;
    let Some(block) = answer else {
        return Ok(None);
    };
    let n = block.length as usize;
    let coefficients = block.coefficients;
    let data = block_data(s, r, channel, position);
    let after = decode_block(data, n, &coefficients, block.context, samples)?;
    let decoder = Decoder {
        position: call.position,
        context: after,
    };
    Ok(Some((adpcm_samples(n), decoder)))
}

// The block at the decoder's position, decoded into the lent places from the first on. The decoder afterwards has the next position and the context after the
// last sample; a refusal and the end leave decoder and places.
pub fn decode(
    s: &[u8],
    r: HpsReader,
    channel: usize,
    decoder: Decoder,
    samples: &mut [i16],
) -> DecodeCall
    requires { Readable r }
    ensures answer { says result.answer ≡ decode_answer (decoding s.now r channel decoder.position (length samples.old)) }
    ensures decoder_after { result.decoder ≡ decoder_after decoder (decoding s.now r channel decoder.position (length samples.old)) }
    ensures samples_after { samples.new
        ≡ samples_after samples.old (decoding s.now r channel decoder.position (length samples.old)) }
{
    match decode_next(s, r, channel, decoder, samples) {
        Ok(Some((filled, after))) => DecodeCall {
            answer: Ok(Some(filled)),
            decoder: after,
        },
        Ok(None) => DecodeCall {
            answer: Ok(None),
            decoder,
        },
        Err(refusal) => DecodeCall {
            answer: Err(refusal),
            decoder,
        },
    }
}
