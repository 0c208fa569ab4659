// A block of ADPCM data decoded into lent places (document 02, Card 1), as decode.rs does it.
#![tactic(auto)]

ghost use Rattle.std.specs.Prelude.{◌-◌, ◌*◌, ◌≤◌, ◌<◌, ◌≡◌, ◌++◌, length, get_or, take, drop};
ghost use Rattle.layout.specs.Answers.{says};
ghost use Rattle.layout.specs.Records.{adpcm_bytes, adpcm_samples};
ghost use Rattle.adpcm_block.specs.Cases.{DecodedCases};
ghost use Rattle.adpcm_block.specs.Block.{halves, halves_decoded, pair_decoded, block_decoded, decoded_into, context_read, lent_after, SamplesCounted};

use adpcm_sample::next_sample;
use layout::FrameContext;
use layout::refusal::Refusal;
use layout_sizes::{adpcm_bytes, adpcm_samples};

// The half byte of this number, the high half of a byte first.
fn half_at(data: &[u8], i: usize) -> u8
    requires { i < 2 * length data.now }
    ensures { result ≡ get_or (halves data.now) i 0 }
{
    let b = data[i / 2];
    if i % 2 == 0 { b / 16 } else { b % 16 }
}

// As many half bytes of the data as there are places, decoded into them; gives the context after them.
fn decode_halves(
    data: &[u8],
    c0: i16,
    c1: i16,
    mut context: FrameContext,
    samples: &mut [i16],
) -> FrameContext
    requires { length samples.old ≤ 2 * length data.now }
    ensures value { result ≡ (halves_decoded c0 c1 context (take (length samples.old) (halves data.now))).context }
    ensures samples_after { samples.new ≡ (halves_decoded c0 c1 context (take (length samples.old) (halves data.now))).samples }
{
    for (i, place) in samples.iter_mut().enumerate() {
        let x = next_sample(c0, c1, context, half_at(data, i));
        *place = x;
        context.oldest = context.last;
        context.last = x;
    }
    context
}

// The same by the pair of coefficients that predictor and scale choose.
fn decode_frame(
    data: &[u8],
    coefficients: &[i16; 16],
    context: FrameContext,
    samples: &mut [i16],
) -> FrameContext
    requires { length samples.old ≤ 2 * length data.now }
    ensures value { result ≡ (pair_decoded coefficients.now context (take (length samples.old) (halves data.now))).context }
    ensures samples_after { samples.new ≡ (pair_decoded coefficients.now context (take (length samples.old) (halves data.now))).samples }
{
    let pair = (context.predictor_and_scale / 16 % 8 * 2) as usize;
    decode_halves(
        data,
        coefficients[pair],
        coefficients[pair + 1],
        context,
        samples,
    )
}

// The half bytes of so many addresses of a frame: the first two are its header's.
fn halves_in(addresses: usize) -> usize
    ensures { result ≡ addresses - 2 }
{
    addresses.saturating_sub(2)
}

// The frames of n addresses, one after the other: the first goes by the context, each other by its header byte.
fn decode_frames(
    block: &[u8],
    n: usize,
    coefficients: &[i16; 16],
    mut context: FrameContext,
    samples: &mut [i16],
) -> FrameContext
    requires { (adpcm_bytes n ≤ length block.now) × (adpcm_samples n ≤ length samples.old) }
    ensures value { result ≡ (block_decoded coefficients.now context n block.now).context }
    ensures samples_after { samples.new ≡ (block_decoded coefficients.now context n block.now).samples ++ drop (adpcm_samples n) samples.old }
{
    // A while, since what is written through the parts of chunks_mut is not known after it.
    let mut left = n;
    // Where the frame starts, with its header byte.
    let mut first: usize = 0;
    let mut at: usize = 0;
    while 16 < left {
        let data = &block[first + 1..];
        let places = &mut samples[at..at + 14];
        context = decode_frame(data, coefficients, context, places);
        first += 8;
        at += 14;
        left -= 16;
        context.predictor_and_scale = u16::from(block[first]);
    }
    // Of no addresses there is not even a header byte.
    let data = &block[(first + 1).min(block.len())..];
    let places = &mut samples[at..at + halves_in(left)];
    decode_frame(data, coefficients, context, places)
}

// A block of n addresses after its context, decoded into the lent places: the context after its last sample; refused with 1 where the data is shorter than n
// says, and with 14 where there are fewer places than samples.
pub fn decode_block(
    block: &[u8],
    n: usize,
    coefficients: &[i16; 16],
    context: FrameContext,
    samples: &mut [i16],
) -> Result<FrameContext, Refusal>
    ensures result_value { says result ≡ context_read (decoded_into (length samples.old) coefficients.now context n block.now) }
    ensures samples_after { samples.new
        ≡ lent_after (decoded_into (length samples.old) coefficients.now context n block.now) samples.old }
{
    let bytes = adpcm_bytes(n);
    let count = adpcm_samples(n);
    if block.len() < bytes {
        return Err(Refusal::SlotEndsEarly);
    }
    if samples.len() < count {
        return Err(Refusal::LentTooShort);
    }
    Ok(decode_frames(block, n, coefficients, context, samples))
}

// A block has as many samples as document 01 counts for its length.
pub fn samples_counted()
    ensures { SamplesCounted }
{}

// The cases that tell the readings of the card apart, computed.
pub fn decoded_cases()
    ensures { DecodedCases }
{}
