// A channel reading that carries the slot and its position, thin over the calls on plain parameters.
#![tactic(auto)]

ghost use Rattle.std.specs.Prelude.{◌≡◌};
ghost use Rattle.layout.specs.Answers.{says};
ghost use Rattle.reader.specs.OpeningAndReading.{Readable, block_read, data_remaining};
ghost use Rattle.reader_block.specs.BlockAnswers.{block_answer, block_position, block_data, block_start, bytes_on};
ghost use Rattle.reader_remaining.specs.RemainingAnswers.{remaining_says};
ghost use Rattle.reader_channel.specs.ChannelReading.{position_after};

use layout::refusal::Refusal;
use reader::HpsReader;
use reader_block::{BlockCall, block_data, read_block};
use reader_remaining::data_remaining;

#[derive(Clone, Copy)]
pub struct ChannelReader<'a> {
    pub slot: &'a [u8],
    pub position: usize,
}

impl<'a> ChannelReader<'a> {
    pub fn new(slot: &'a [u8], position: usize) -> ChannelReader<'a>
        ensures { (result.slot ≡ slot.entry) × (result.position ≡ position) }
    {
        ChannelReader { slot, position }
    }

    // The block at the position; the answer has the position to go on from.
    pub fn read(self, r: HpsReader, channel: usize) -> BlockCall
        requires { Readable r }
        ensures answer { says result.answer ≡ block_answer (block_read self.entry.slot.now r channel self.entry.position) }
        ensures position_after { result.position ≡ position_after self.entry.slot.now r channel self.entry.position }
    {
        read_block(self.slot, r, channel, self.position)
    }

    // Its data, a part of the slot itself, and where it lies.
    pub fn data(self, r: HpsReader, channel: usize) -> &'a [u8]
        requires { Readable r }
        ensures { (result.now ≡ block_data (block_read self.entry.slot.now r channel self.entry.position))
            × (result.ref_ptr ≡ bytes_on self.entry.slot.ref_ptr (block_start (block_read self.entry.slot.now r channel self.entry.position))) }
    {
        block_data(self.slot, r, channel, self.position)
    }

    // The reader moved on: past the block at its position, with 1 too; at the end and with 6 it stays.
    pub fn moved(self, r: HpsReader, channel: usize) -> ChannelReader<'a>
        requires { Readable r }
        ensures { (result.slot ≡ self.entry.slot) × (result.position ≡ position_after self.entry.slot.now r channel self.entry.position) }
    {
        let position = position_after(self.slot, r, channel, self.position);
        ChannelReader {
            slot: self.slot,
            position,
        }
    }

    // The addresses from the position on.
    pub fn remaining(self, r: HpsReader) -> Result<u64, Refusal>
        requires { Readable r }
        ensures { remaining_says result ≡ data_remaining self.entry.slot.now r self.entry.position }
    {
        data_remaining(self.slot, r, self.position)
    }
}

// Where the position stands after the block read at it.
fn position_after(slot: &[u8], r: HpsReader, channel: usize, position: usize) -> usize
    requires { Readable r }
    ensures { result ≡ position_after slot.now r channel position }
{
    read_block(slot, r, channel, position).position
}

// The block at a position, read by a reader that is made there.
pub fn read_at(slot: &[u8], r: HpsReader, channel: usize, position: usize) -> BlockCall
    requires { Readable r }
    ensures answer { says result.answer ≡ block_answer (block_read slot.now r channel position) }
    ensures position_after { result.position ≡ position_after slot.now r channel position }
{
    ChannelReader::new(slot, position).read(r, channel)
}

// What a reader that is made at a position reads when it has moved on.
pub fn read_next(slot: &[u8], r: HpsReader, channel: usize, position: usize) -> BlockCall
    requires { Readable r }
    ensures answer { says result.answer ≡ block_answer (block_read slot.now r channel (position_after slot.now r channel position)) }
    ensures position_after { result.position ≡ position_after slot.now r channel (position_after slot.now r channel position) }
{
    ChannelReader::new(slot, position)
        .moved(r, channel)
        .read(r, channel)
}
