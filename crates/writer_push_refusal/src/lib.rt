// Push's refusals (document 01, "Loading") in the groups of its order: each gives the first that is due.
#![tactic(auto)]

ghost use Rattle.std.specs.Prelude.{◌≡◌};
ghost use Rattle.layout.specs.Answers.{due_number};
ghost use Rattle.layout.specs.Refusals.{first_due};
ghost use Rattle.writer.specs.Loading.{differ, changed, state_due, zero_in_each, no_addresses, blocks_due, rate_due, length_due, same_z, data_due, coefficients_due, early_due, room_due};

use layout::limits::BLOCK_LIMIT;
use layout::refusal::Refusal;
use layout_sizes::{adpcm_bytes, size_limit};
use writer::ChannelBlock;

// 26, 29
#[tactic(auto, unfolding(writer::specs::Loading::state_due, layout::specs::Refusals::first_due))]
pub fn state_due(last: bool, own: usize, channels: usize) -> Result<(), Refusal>
    ensures { due_number result ≡ first_due (state_due last own channels) }
{
    if last {
        return Err(Refusal::AfterLast);
    }
    if channels != own {
        return Err(Refusal::OtherChannelCount);
    }
    Ok(())
}

// 0 in every channel: in mono the second number is not looked at.
fn zero_in_each(channels: usize, left: usize, right: usize) -> bool
    ensures { result ≡ zero_in_each channels left right }
{
    left == 0 && (channels != 2 || right == 0)
}

// A push of length 0 in every channel, with no data and without the last mark: nothing is to be done.
#[tactic(auto, unfolding(writer::specs::Loading::no_addresses))]
pub fn no_addresses(
    channels: usize,
    left: usize,
    right: usize,
    left_bytes: usize,
    right_bytes: usize,
    mark: bool,
) -> bool
    ensures { result ≡ no_addresses channels left right left_bytes right_bytes mark }
{
    !mark && zero_in_each(channels, left, right) && zero_in_each(channels, left_bytes, right_bytes)
}

// 25
#[tactic(auto, unfolding(writer::specs::Loading::blocks_due, layout::specs::Refusals::first_due))]
fn blocks_due(blocks: usize) -> Result<(), Refusal>
    ensures { due_number result ≡ first_due (blocks_due blocks) }
{
    if blocks >= BLOCK_LIMIT {
        return Err(Refusal::NoMoreBlocks);
    }
    Ok(())
}

// Two channels, and their numbers differ.
fn differ(channels: usize, left: usize, right: usize) -> bool
    ensures { result ≡ differ channels left right }
{
    channels == 2 && left != right
}

// A later block, and its number is not the first one's.
fn changed(blocks: usize, first: u32, given: u32) -> bool
    ensures { result ≡ changed blocks first given }
{
    blocks > 0 && given != first
}

// 15, 22, 9
#[tactic(auto, unfolding(writer::specs::Loading::rate_due, layout::specs::Refusals::first_due))]
fn rate_due(
    blocks: usize,
    first: u32,
    channels: usize,
    left: u32,
    right: u32,
) -> Result<(), Refusal>
    ensures { due_number result ≡ first_due (rate_due blocks first channels left right) }
{
    if differ(channels, left as usize, right as usize) {
        return Err(Refusal::RatesDiffer);
    }
    if changed(blocks, first, left) {
        return Err(Refusal::RateChanged);
    }
    if left == 0 {
        return Err(Refusal::RateZero);
    }
    Ok(())
}

// 12, 10, 13
#[tactic(auto, unfolding(writer::specs::Loading::length_due, layout::specs::Refusals::first_due))]
fn length_due(channels: usize, left: usize, right: usize) -> Result<(), Refusal>
    ensures { due_number result ≡ first_due (length_due channels left right) }
{
    if differ(channels, left, right) {
        return Err(Refusal::LengthsDiffer);
    }
    if left < 2 {
        return Err(Refusal::TooShort);
    }
    if size_limit(channels) < adpcm_bytes(left) {
        return Err(Refusal::TooLarge);
    }
    Ok(())
}

// 11
#[tactic(auto, unfolding(writer::specs::Loading::data_due, layout::specs::Refusals::first_due))]
fn data_due(
    channels: usize,
    left: usize,
    left_bytes: usize,
    right: usize,
    right_bytes: usize,
) -> Result<(), Refusal>
    ensures { due_number result ≡ first_due (data_due channels left left_bytes right right_bytes) }
{
    if left_bytes != adpcm_bytes(left) {
        return Err(Refusal::WrongDataLength);
    }
    if channels == 2 && right_bytes != adpcm_bytes(right) {
        return Err(Refusal::WrongDataLength);
    }
    Ok(())
}

// Whether the coefficients are the same.
fn same(a: [i16; 16], b: [i16; 16]) -> bool
    ensures { result ≡ same_z a b }
{
    a == b
}

// 23
#[tactic(auto, unfolding(writer::specs::Loading::coefficients_due, layout::specs::Refusals::first_due))]
fn coefficients_due(
    blocks: usize,
    first: [i16; 16],
    second: [i16; 16],
    channels: usize,
    left: [i16; 16],
    right: [i16; 16],
) -> Result<(), Refusal>
    ensures { due_number result ≡ first_due (coefficients_due blocks first second channels left right) }
{
    if blocks > 0 && !same(left, first) {
        return Err(Refusal::CoefficientsChanged);
    }
    if blocks > 0 && channels == 2 && !same(right, second) {
        return Err(Refusal::CoefficientsChanged);
    }
    Ok(())
}

// All from 25 on and before 24: by what the record keeps, the first block's sides among it, and the push.
pub fn early_due(
    blocks: usize,
    first: ChannelBlock,
    second: ChannelBlock,
    channels: usize,
    left: ChannelBlock,
    right: ChannelBlock,
    left_bytes: usize,
    right_bytes: usize,
) -> Result<(), Refusal>
    ensures { due_number result ≡ first_due (early_due blocks first second channels left right left_bytes right_bytes) }
{
    blocks_due(blocks)?;
    rate_due(blocks, first.rate, channels, left.rate, right.rate)?;
    length_due(channels, left.length, right.length)?;
    data_due(channels, left.length, left_bytes, right.length, right_bytes)?;
    coefficients_due(
        blocks,
        first.coefficients,
        second.coefficients,
        channels,
        left.coefficients,
        right.coefficients,
    )
}

// 24, 14
#[tactic(auto, unfolding(writer::specs::Loading::room_due, layout::specs::Refusals::first_due))]
pub fn room_due(slot: usize, offset: usize, size: usize, lent: usize) -> Result<(), Refusal>
    ensures { due_number result ≡ first_due (room_due slot offset size lent) }
{
    if slot < offset || slot - offset < size {
        return Err(Refusal::PastSlotEnd);
    }
    if lent < size {
        return Err(Refusal::LentTooShort);
    }
    Ok(())
}
