// Where the data of a block lies (document 01, "Opening and reading").
ghost use Rattle.std.specs.Prelude.{◌≡◌};
ghost use Rattle.layout.specs.Answers.{says};
ghost use Rattle.reader_block.specs.DataPlaces.{data_placed, data_found};

use layout::fields::inside;
use layout::limits::{BLOCK_HEADER_SIZE, CUE_POINT_SIZE};
use layout::refusal::Refusal;
use layout::{DspFormat, FrameContext};
use layout_read::block::read_header;
use layout_sizes::{address_to_byte_up, align};

// A block's length and context in a channel, and where its data lies.
#[derive(Clone, Copy)]
pub struct BlockData {
    pub length: u64,
    pub context: FrameContext,
    pub start: usize,
    pub end: usize,
}

fn place_data(
    slot: usize,
    start: usize,
    bytes: usize,
    length: u64,
    context: FrameContext,
) -> Result<BlockData, Refusal>
    ensures { says result ≡ data_placed slot start bytes length context }
{
    if inside(slot, start, bytes) {
        Ok(BlockData {
            length,
            context,
            start,
            end: start + bytes,
        })
    } else {
        Err(Refusal::SlotEndsEarly)
    }
}

// The data in a channel of this format, of the block at an offset.
pub fn find_data(
    s: &[u8],
    offset: u32,
    channel: usize,
    format: DspFormat,
) -> Result<BlockData, Refusal>
    ensures { says result ≡ data_found s.now offset channel format }
{
    let header = read_header(s, offset)?;
    let bytes = address_to_byte_up(header.end_address, format);
    let length = u64::from(header.end_address) + 1;
    let first = offset as usize + BLOCK_HEADER_SIZE + align(CUE_POINT_SIZE * header.cues);
    if channel == 1 {
        place_data(s.len(), first + align(bytes), bytes, length, header.right)
    } else {
        place_data(s.len(), first, bytes, length, header.left)
    }
}
