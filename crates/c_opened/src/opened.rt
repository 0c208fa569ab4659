// The opening record in bytes: the file header, with zeros for a channel that is not in use; the count of blocks; the loop start, 4,294,967,295 for none; the offsets of 512 blocks.
ghost use Rattle.std.specs.Prelude.{◌≡◌, ◌≤◌, IfOk, length};
ghost use Rattle.reader.specs.OpeningAndReading.{Readable};
ghost use Rattle.c_opened.specs.KeptReader.{loop_of, offsets_in, part_in, where_opened, ReadBack};
ghost use Rattle.layout.specs.Refusals.{block_limit};

use crate::failure::Failure;
use layout::limits::{BLOCK_LIMIT, FILE_HEADER_SIZE};
use layout_number_or_zero::word;
use layout_read::channels::read_channel;
use reader::{HpsReader, no_reader};

pub const BLOCKS_AT: usize = FILE_HEADER_SIZE;

pub const LOOP_AT: usize = BLOCKS_AT + 4;

pub const OFFSETS_AT: usize = LOOP_AT + 4;

pub const OFFSETS_SIZE: usize = 4 * BLOCK_LIMIT;

pub const OPENED_SIZE: usize = OFFSETS_AT + OFFSETS_SIZE;

pub const NO_LOOP: u32 = 0xFFFF_FFFF;

fn loop_of(number: u32) -> Option<usize>
    ensures { result ≡ loop_of number }
{
    if number == NO_LOOP {
        None
    } else {
        Some(number as usize)
    }
}

// The offsets of the blocks from one to another, zeros elsewhere.
fn offsets_in(kept: &[u8], from: usize, to: usize) -> [u32; BLOCK_LIMIT]
    requires { (to ≤ block_limit) × (2184 ≤ length kept.now) }
    ensures { result ≡ offsets_in kept.now from to block_limit 0 }
{
    let mut offsets = [0u32; BLOCK_LIMIT];
    for i in from..to {
        offsets[i] = word(kept, OFFSETS_AT + 4 * i);
    }
    offsets
}

// The record that lent bytes hold, one of no channel where they hold none. Whatever they are, it meets the premise of the reading calls.
// Of the offsets it has those of the blocks from one to another, which are all that the call needs.
pub fn reader_in(kept: &[u8], from: usize, to: usize) -> HpsReader
    ensures value { result ≡ part_in kept.now from to }
    ensures readable { Readable result }
{
    if kept.len() < OPENED_SIZE {
        return no_reader();
    }
    let count = word(kept, 12) as usize;
    let blocks = word(kept, BLOCKS_AT) as usize;
    if count > 2 || blocks > BLOCK_LIMIT {
        return no_reader();
    }
    let Ok(left) = read_channel(kept, 16) else {
        return no_reader();
    };
    let Ok(right) = read_channel(kept, 72) else {
        return no_reader();
    };
    let offsets = offsets_in(kept, from, to.min(blocks));
    let loop_start = loop_of(word(kept, LOOP_AT));
    HpsReader {
        rate: word(kept, 8),
        count,
        channels: [left, right],
        blocks,
        offsets,
        loop_start,
    }
}

// The same where they hold one of a channel or two.
pub fn kept_reader(kept: &[u8], from: usize, to: usize) -> Result<HpsReader, Failure>
    ensures value { result ≡ where_opened (part_in kept.now from to) }
    ensures readable { IfOk result Readable }
{
    let r = reader_in(kept, from, to);
    if r.count == 0 {
        return Err(Failure::NoRecord);
    }
    Ok(r)
}

// What put_opened puts for an opening's record, reader_in reads back.
pub fn read_back()
    ensures { ReadBack }
{}
