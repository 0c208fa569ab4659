// Block read (document 01, "Opening and reading").
#![tactic(auto)]

ghost use Rattle.std.specs.Prelude.{◌≡◌, ◌<◌, get_or};
ghost use Rattle.layout.specs.Records.{no_channel};
ghost use Rattle.layout.specs.Answers.{says};
ghost use Rattle.reader.specs.OpeningAndReading.{Readable, block_read};
ghost use Rattle.reader_block.specs.BlockAnswers.{block_answer, block_position, block_data, block_start, bytes_on};

use crate::data_places::find_data;
use layout::refusal::Refusal;
use layout::{Channel, DspFormat, FrameContext, no_channel};
use reader::HpsReader;

mod data_places; // data_places.rt: where a block's data lies

#[derive(Clone, Copy)]
pub struct Block {
    pub rate: u32,
    pub format: DspFormat,
    pub coefficients: [i16; 16],
    pub gain: u16,
    pub length: u64,
    pub context: FrameContext,
    // The data is the slot from start to end.
    pub start: usize,
    pub end: usize,
}

#[derive(Clone, Copy)]
pub struct BlockCall {
    // The block, or none past the last.
    pub answer: Result<Option<Block>, Refusal>,
    // The position after the call.
    pub position: usize,
}

// A channel of the record, zeros where there is no such channel.
pub fn channel_of(channels: [Channel; 2], channel: usize) -> Channel
    ensures { result ≡ get_or channels channel no_channel }
{
    match channels.get(channel) {
        Some(c) => *c,
        None => no_channel(),
    }
}

// The block at the position of one, for a channel in use.
fn block_there(
    s: &[u8],
    r: HpsReader,
    channel: usize,
    position: usize,
) -> Result<Option<Block>, Refusal>
    requires readable { Readable r }
    requires in_use { channel < r.count }
    requires there { position < r.blocks }
    ensures { says result ≡ block_answer (block_read s.now r channel position) }
{
    let c = channel_of(r.channels, channel);
    let found = find_data(s, r.offsets[position], channel, c.format)?;
    let coefficients = c.coefficients;
    Ok(Some(Block {
        rate: r.rate,
        format: c.format,
        coefficients,
        gain: c.gain,
        length: found.length,
        context: found.context,
        start: found.start,
        end: found.end,
    }))
}

// The block at a position, for a channel; the data itself is what block_data returns.
pub fn read_block(s: &[u8], r: HpsReader, channel: usize, position: usize) -> BlockCall
    requires { Readable r }
    ensures answer { says result.answer ≡ block_answer (block_read s.now r channel position) }
    ensures position_after { result.position ≡ block_position position (block_read s.now r channel position) }
{
    if r.count <= channel {
        return BlockCall {
            answer: Err(Refusal::NoSuchChannel),
            position,
        };
    }
    if r.blocks <= position {
        return BlockCall {
            answer: Ok(None),
            position,
        };
    }
    BlockCall {
        answer: block_there(s, r, channel, position),
        position: position + 1,
    }
}

// The block's data as a part of the slot itself: its bytes, and its place in memory. Where no block is given the part is empty, at the slot's start.
pub fn block_data<'a>(s: &'a [u8], r: HpsReader, channel: usize, position: usize) -> &'a [u8]
    requires { Readable r }
    ensures { (result.now ≡ block_data (block_read s.now r channel position))
        × (result.ref_ptr ≡ bytes_on s.entry.ref_ptr (block_start (block_read s.now r channel position))) }
{
    if r.count <= channel {
        return &s[..0];
    }
    if r.blocks <= position {
        return &s[..0];
    }
    let side = channel_of(r.channels, channel);
    let Ok(found) = find_data(s, r.offsets[position], channel, side.format) else {
        return &s[..0];
    };
    &s[found.start..found.end]
}
