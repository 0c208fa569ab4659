// The estimate of a finished length (document 01, "Marking key and estimate").
#![tactic(auto)]

ghost use Rattle.std.specs.Prelude.{◌≡◌, [], ◌∷◌, ◌+◌, ◌*◌, ◌≤◌};
ghost use Rattle.layout.specs.Records.{padded_size, adpcm_bytes, block_header_size};
ghost use Rattle.layout.specs.Answers.{due_number};
ghost use Rattle.layout.specs.Refusals.{due, first_due, too_short, too_large, mono_limit};
ghost use Rattle.writer.specs.Estimate.{estimate_of};
ghost use Rattle.writer_estimate.specs.EstimateAnswers.{estimate_says};

use layout::limits::{ALIGNMENT, BLOCK_HEADER_SIZE, BLOCK_LIMIT, FILE_HEADER_SIZE};
use layout::refusal::Refusal;
use layout_sizes::{adpcm_bytes, align, size_limit};

const HEADER: u64 = FILE_HEADER_SIZE as u64;

// A cue takes at most the filled bytes of four.
const CUE_MOST: u64 = ALIGNMENT as u64;

// Why a length is refused, if it is.
#[tactic(auto, unfolding(layout::specs::Refusals::first_due))]
fn length_due(channels: usize, n: usize) -> Result<(), Refusal>
    ensures { due_number result ≡ first_due (due 10 (too_short n) ∷ due 13 (too_large channels n) ∷ []) }
{
    if n < 2 {
        return Err(Refusal::TooShort);
    }
    if adpcm_bytes(n) > size_limit(channels) {
        return Err(Refusal::TooLarge);
    }
    Ok(())
}

// What a block with this length may take, without its cues.
fn block_estimate(channels: usize, n: usize) -> u64
    requires { (channels ≤ 2) × (adpcm_bytes n ≤ mono_limit) }
    ensures { result ≡ block_header_size + channels * padded_size (adpcm_bytes n) }
{
    let data = channels * align(adpcm_bytes(n));
    let size = BLOCK_HEADER_SIZE + data;
    size as u64
}

// The sum cannot wrap: at most 512 lengths are added, none of which is too large.
#[tactic(auto, unfolding(writer::specs::Estimate::estimate_refusal, writer::specs::Estimate::estimate_of, layout::specs::Refusals::first_due))]
pub fn estimate(lengths: &[usize], channels: usize, p: u32) -> Result<u64, Refusal>
    ensures { estimate_says result ≡ estimate_of channels lengths.now p }
{
    if channels != 1 && channels != 2 {
        return Err(Refusal::WrongChannelCount);
    }
    if lengths.len() > BLOCK_LIMIT {
        return Err(Refusal::TooManyBlocks);
    }
    let mut sum: u64 = HEADER;
    for &n in lengths {
        length_due(channels, n)?;
        sum += block_estimate(channels, n);
    }
    Ok(sum + CUE_MOST * p as u64)
}
