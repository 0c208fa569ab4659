// Lengths, bytes and samples. Every argument is taken, and no sum wraps.
#![tactic(auto)]

ghost use Rattle.std.specs.Prelude.{◌≡◌, ◌+◌};
ghost use Rattle.layout.specs.Records.{padded_size, adpcm_bytes, address_to_byte_up, adpcm_samples, num_samples};
ghost use Rattle.layout.specs.Refusals.{size_limit};
ghost use Rattle.layout.specs.Sizes.{saturated};

use layout::DspFormat;
use layout::limits::{ALIGNMENT, MONO_LIMIT, STEREO_LIMIT};

// The alignment of data in an HPS file: P(n), or usize::MAX where that is larger.
#[tactic(auto, unfolding(layout::specs::Records::padded_size, layout::specs::Sizes::saturated))]
pub fn align(n: usize) -> usize
    ensures { result ≡ saturated (padded_size n) }
{
    n.checked_next_multiple_of(ALIGNMENT).unwrap_or(usize::MAX)
}

// Half of n, rounded up.
#[tactic(auto, unfolding(layout::specs::Records::adpcm_bytes))]
pub fn adpcm_bytes(n: usize) -> usize
    ensures { result ≡ adpcm_bytes n }
{
    n.div_ceil(2)
}

// An ADPCM address as a sample index: the two leading half bytes of each frame are no samples.
#[tactic(auto, unfolding(layout::specs::Records::adpcm_samples))]
pub fn adpcm_samples(n: usize) -> usize
    ensures { result ≡ adpcm_samples n }
{
    // Push the address past a frame boundary
    let address = if n % 16 < 2 { n - n % 16 + 2 } else { n };
    let num_frames = address / 16 + 1;
    address - num_frames * 2
}

// The bytes of a block's data with this end address.
pub fn address_to_byte_up(end_address: u32, format: DspFormat) -> usize
    ensures { result ≡ address_to_byte_up format (end_address + 1) }
{
    let len = end_address as usize + 1;
    match format {
        DspFormat::Adpcm => adpcm_bytes(len),
        DspFormat::Pcm16 => len * 2,
        DspFormat::Pcm8 => len,
    }
}

// The samples of a block with this end address.
pub fn num_samples(end_address: u32, format: DspFormat) -> u64
    ensures { result ≡ num_samples format (end_address + 1) }
{
    let len = end_address as usize + 1;
    match format {
        DspFormat::Adpcm => adpcm_samples(len) as u64,
        DspFormat::Pcm16 => len as u64,
        DspFormat::Pcm8 => len as u64,
    }
}

// How many bytes of a channel a block may have.
pub fn size_limit(channels: usize) -> usize
    ensures { result ≡ size_limit channels }
{
    if channels == 2 {
        STEREO_LIMIT
    } else {
        MONO_LIMIT
    }
}
