// Opening a slot (document 01, "Opening and reading").
#![tactic(auto)]

ghost use Rattle.std.specs.Prelude.{◌≡◌, IfOk};
ghost use Rattle.layout.specs.Refusals.{wrong_count};
ghost use Rattle.reader.specs.OpeningAndReading.{opening, Readable};
ghost use Rattle.reader.specs.ReaderAnswers.{opened_says};
ghost use Rattle.reader_open.specs.WalkAnswers.{in_use};

use crate::walk::walk_blocks;
use layout::fields::read;
use layout::limits::{BLOCK_LIMIT, SLOT_LIMIT};
use layout::refusal::Refusal;
use layout::{Channel, no_channel};
use layout_read::channels::read_channel;
use layout_read::file::read_magic;
use reader::HpsReader;

mod walk; // walk.rt: the walk along the chain of blocks

fn wrong_count(count: u32) -> bool
    ensures { result ≡ wrong_count count }
{
    !matches!(count, 1 | 2)
}

fn in_use(count: u32, left: Channel, right: Channel) -> [Channel; 2]
    ensures { result ≡ in_use count left right }
{
    if count == 2 {
        [left, right]
    } else {
        [left, no_channel()]
    }
}

pub fn open(s: &[u8]) -> Result<HpsReader, Refusal>
    ensures value { opened_says result ≡ opening s.now }
    ensures readable { IfOk result Readable }
{
    // First of all: further down the compiler would clear their place at the start and once more there.
    let mut offsets = [0; BLOCK_LIMIT];
    if s.len() > SLOT_LIMIT {
        return Err(Refusal::WrongSlotLength);
    }
    read_magic(s)?;
    let rate = read(s, 8)?;
    let count = read(s, 12)?;
    if wrong_count(count) {
        return Err(Refusal::WrongChannelCount);
    }
    let left = read_channel(s, 16)?;
    let right = read_channel(s, 72)?;
    let walk = walk_blocks(s, &mut offsets)?;
    Ok(HpsReader {
        rate,
        count: count as usize,
        channels: in_use(count, left, right),
        blocks: walk.count,
        offsets,
        loop_start: walk.loop_start,
    })
}
