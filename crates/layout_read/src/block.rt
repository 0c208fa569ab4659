// A block's header with the filled cues, and a cue point, read at an offset of a slot.
ghost use Rattle.std.specs.Prelude.{◌≡◌, ◌+◌};
ghost use Rattle.layout.specs.Records.{field, read_header, cue_at};
ghost use Rattle.layout.specs.Answers.{says};

use layout::fields::{inside, read};
use layout::limits::{ALIGNMENT, BLOCK_HEADER_SIZE};
use layout::refusal::Refusal;
use layout::{BlockHeader, CuePoint, FrameContext};

// The header at an offset. The cue count, the last of its fields, tells how far the filled cues reach.
// The contexts are read here by their fields: a call for each costs the walk along the blocks a fifth of its speed.
pub fn read_header(s: &[u8], offset: u32) -> Result<BlockHeader, Refusal>
    ensures { says result ≡ read_header s.now offset }
{
    let at = offset as usize;
    let size = read(s, at)?;
    let end_address = read(s, at + 4)?;
    let next_offset = read(s, at + 8)?;
    let left_scale = read(s, at + 12)?;
    let left_last = read(s, at + 14)?;
    let left_oldest = read(s, at + 16)?;
    let right_scale = read(s, at + 20)?;
    let right_last = read(s, at + 22)?;
    let right_oldest = read(s, at + 24)?;
    let count: u8 = read(s, at + 28)?;
    let cues = count as usize;
    if inside(
        s.len(),
        at,
        BLOCK_HEADER_SIZE + cues.div_ceil(4) * ALIGNMENT,
    ) {
        Ok(BlockHeader {
            size,
            end_address,
            next_offset,
            left: FrameContext {
                predictor_and_scale: left_scale,
                last: left_last,
                oldest: left_oldest,
            },
            right: FrameContext {
                predictor_and_scale: right_scale,
                last: right_last,
                oldest: right_oldest,
            },
            cues,
        })
    } else {
        Err(Refusal::SlotEndsEarly)
    }
}

pub fn read_cue(s: &[u8], at: usize) -> Result<CuePoint, Refusal>
    ensures { says result ≡ field s.now (at + 8) (cue_at s.now at) }
{
    let sample_index = read(s, at)?;
    let id = read(s, at + 4)?;
    Ok(CuePoint { sample_index, id })
}
