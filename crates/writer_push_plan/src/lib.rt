// What a push is to do, worked out of numbers alone (document 01, "Loading"): why it is refused, or the block's header and size, and the stream after it.
#![tactic(auto)]

ghost use Rattle.std.specs.Prelude.{◌≡◌, ℕ, ◌+◌, ◌*◌, ◌<◌, ◌≤◌, ◌^◌, eqb, IfOk, IfSome};
ghost use Rattle.layout.specs.Sizes.{saturated};
ghost use Rattle.layout.specs.Records.{adpcm_samples, data_after};
ghost use Rattle.writer.specs.Loading.{data_size, second_context};
ghost use Rattle.writer.specs.Calls.{record_of, Good};
ghost use Rattle.writer.specs.Push.{loops_here, loop_from, next_offset, advanced};
ghost use Rattle.writer_push_plan.specs.PushPlan.{plan_says, plan_of};
ghost use Rattle.layout.specs.Refusals.{slot_limit, mono_limit, block_limit};
ghost use Rattle.layout.specs.Choice.{pick};

use layout::limits::{BLOCK_HEADER_SIZE, CUE_POINT_SIZE, END_BLOCK_OFFSET, SLOT_LIMIT};
use layout::refusal::Refusal;
use layout::{BlockHeader, FrameContext};
use layout_sizes::{adpcm_samples, align};
use writer::{ChannelBlock, Looping, Setup, Stream};
use writer_assign_cues::Taken;
use writer_push_refusal::{early_due, no_addresses, room_due, state_due};

// The block's header, where its data starts, its size, and the stream after it.
#[derive(Clone, Copy)]
pub struct Plan {
    pub header: BlockHeader,
    pub start: usize,
    pub size: usize,
    pub after: Stream,
}

// The sample that a block of this length ends before, or u64::MAX where that is larger.
pub fn block_end(base: u64, size: usize) -> u64
    ensures { result ≡ saturated (base + adpcm_samples size) }
{
    let samples = adpcm_samples(size) as u64;
    if samples <= u64::MAX - base {
        base + samples
    } else {
        u64::MAX
    }
}

// The sum of padded data.
fn data_size(channels: usize, left: usize, right: usize) -> usize
    requires { (left ≤ mono_limit) × (channels ≡ 2 → right ≤ mono_limit) }
    ensures { result ≡ data_size channels left right }
{
    let size = align(left);
    if channels == 2 {
        return size + align(right);
    }
    size
}

// Where the data starts: after the header and the filled cues.
fn data_start(points: usize) -> usize
    requires { points ≤ slot_limit }
    ensures { result ≡ data_after points }
{
    BLOCK_HEADER_SIZE + align(CUE_POINT_SIZE * points)
}

// A second channel not in use has a context of zeros.
fn second_context(channels: usize, right: ChannelBlock) -> FrameContext
    ensures { result ≡ second_context channels right }
{
    if channels == 2 {
        return right.context;
    }
    FrameContext {
        predictor_and_scale: 0,
        last: 0,
        oldest: 0,
    }
}

// Whether a block that ends before this sample would be the loop block, by whether the table has a Loop and whether the block takes one.
fn loop_due(mode: Looping, held: bool, asked: bool, end: u64, last: bool) -> bool
    ensures { result ≡ loops_here mode held asked end last }
{
    match mode {
        Looping::Disabled => false,
        Looping::Enabled => {
            if held {
                return asked;
            }
            if last {
                return true;
            }
            end > 0
        }
        Looping::Auto => asked,
    }
}

// The loop block's offset after a block at this one: the first one stays.
fn loop_after(loopat: Option<usize>, offset: usize, due: bool) -> Option<usize>
    ensures { result ≡ loop_from loopat offset due }
{
    loopat.or(due.then_some(offset))
}

// The next offset of a block that ends here.
fn next_offset(last: bool, loopat: Option<usize>, end: usize) -> u32
    requires end_bound { end < 2 ^ 32 }
    requires by_index { (n : ℕ) → loopat ≡ Some n → n < 2 ^ 32 }
    ensures { result ≡ next_offset last loopat end }
{
    if last {
        match loopat {
            None => END_BLOCK_OFFSET,
            Some(n) => n as u32,
        }
    } else {
        end as u32
    }
}

// The first block's side.
fn first_side(blocks: usize, kept: ChannelBlock, side: ChannelBlock) -> ChannelBlock
    ensures { result ≡ pick (eqb blocks 0) side kept }
{
    if blocks == 0 { side } else { kept }
}

// The stream after a block of this size that takes these cues, ends before this sample and leaves this loop block.
fn advance(
    s: Stream,
    taken: Taken,
    end: u64,
    size: usize,
    loopat: Option<usize>,
    left: ChannelBlock,
    right: ChannelBlock,
    last: bool,
) -> Stream
    requires { (s.id + taken.points < 2 ^ 32) × (s.blocks < block_limit) × (taken.points ≤ slot_limit) × (s.offset + size < 2 ^ 64) × (s.sum + left.length < 2 ^ 64) }
    ensures { result ≡ advanced s taken.to taken.points end size loopat left right last }
{
    let l = first_side(s.blocks, s.left, left);
    let r = first_side(s.blocks, s.right, right);
    Stream {
        next: taken.to,
        id: s.id + taken.points as u32,
        base: end,
        offset: s.offset + size,
        loopat,
        blocks: s.blocks + 1,
        sum: s.sum + left.length as u64,
        left: l,
        right: r,
        last,
    }
}

// The plan of a push of so many bytes: the block takes these cues, ends before this sample and goes by a lent buffer of this length. An empty push has
// no plan.
pub fn plan_push(
    setup: Setup,
    s: Stream,
    taken: Taken,
    held: bool,
    end: u64,
    channels: usize,
    left: ChannelBlock,
    right: ChannelBlock,
    left_bytes: usize,
    right_bytes: usize,
    last: bool,
    lent: usize,
) -> Result<Option<Plan>, Refusal>
    requires { Good (record_of setup s) }
    ensures planned { plan_says s result ≡ plan_of setup s taken held end channels left right left_bytes right_bytes last lent }
    ensures some_bytes { IfOk result (λ plan. IfSome plan (λ p. 0 < p.size)) }
{
    state_due(s.last, setup.channels, channels)?;
    let empty = no_addresses(
        channels,
        left.length,
        right.length,
        left_bytes,
        right_bytes,
        last,
    );
    if empty {
        return Ok(None);
    }
    early_due(
        s.blocks,
        s.left,
        s.right,
        channels,
        left,
        right,
        left_bytes,
        right_bytes,
    )?;
    // More points and ranges than a slot has bytes.
    if taken.points > SLOT_LIMIT {
        return Err(Refusal::PastSlotEnd);
    }
    let data = data_size(channels, left_bytes, right_bytes);
    let start = data_start(taken.points);
    let size = start + data;
    room_due(setup.slot, s.offset, size, lent)?;
    let due = loop_due(setup.mode, held, taken.asked, end, last);
    let loopat = loop_after(s.loopat, s.offset, due);
    let next = next_offset(last, loopat, s.offset + size);
    let other = second_context(channels, right);
    let padded = data as u32;
    let last_address = left.length - 1;
    let end_address = last_address as u32;
    let after = advance(s, taken, end, size, loopat, left, right, last);
    let header = BlockHeader {
        size: padded,
        end_address,
        next_offset: next,
        left: left.context,
        right: other,
        cues: taken.points,
    };
    Ok(Some(Plan {
        header,
        start,
        size,
        after,
    }))
}
