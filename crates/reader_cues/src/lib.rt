// The cue call and its cursor (document 01, "Cues read back"): the first cursor, whether the Loop stands at a block, a cue's start, the next cue.
#![tactic(auto)]

ghost use Rattle.std.specs.Prelude.{◌≡◌, ◌+◌, ◌%◌, ◌^◌};
ghost use Rattle.std.specs.Int.{w64};
ghost use Rattle.std.proofs.Common.{of_z};
ghost use Rattle.layout.specs.Choice.{◌and◌};
ghost use Rattle.reader.specs.CuesReadBack.{first_cursor, loop_here, cue_step};
ghost use Rattle.layout.specs.Records.{field, cue_at};
ghost use Rattle.reader.specs.OpeningAndReading.{Readable};
ghost use Rattle.reader_cues.specs.CueAnswers.{cue_says, cue_called, step_says, point_read, record_with};

use layout::DspFormat;
use layout::limits::{BLOCK_HEADER_SIZE, CUE_POINT_SIZE};
use layout::refusal::Refusal;
use layout_read::block::{read_cue, read_header};
use layout_sizes::num_samples;
use reader::{CueIterator, HpsReader};

pub fn first_cursor(r: HpsReader) -> CueIterator
    ensures { result ≡ first_cursor r }
{
    CueIterator {
        block: 0,
        place: 0,
        base: 0,
        due: r.loop_start.is_some(),
    }
}

fn loop_here(due: bool, start: Option<usize>, block: usize) -> bool
    ensures { result ≡ due and loop_here start block }
{
    due && start == Some(block)
}

fn sign_extended(index: i32) -> u64
    ensures { result ≡ of_z w64 index }
{
    i64::from(index).cast_unsigned()
}

fn cue_start(base: u64, index: i32) -> u64
    ensures { result ≡ (base + of_z w64 index) % 2 ^ 64 }
{
    base.wrapping_add(sign_extended(index))
}

#[derive(Clone, Copy, Debug, PartialEq, Eq)]
pub enum ReadCue {
    // The start.
    Loop(u64),
    // The start and the name.
    Point(u64, u32),
}

#[derive(Clone, Copy)]
pub struct CueCall {
    // The cue, or none at the end.
    pub answer: Result<Option<ReadCue>, Refusal>,
    pub cursor: CueIterator,
}

// The cue point at a byte of the slot.
fn point_at(s: &[u8], at: usize, base: u64) -> Result<Option<ReadCue>, Refusal>
    ensures { cue_says result ≡ point_read base (field s.now (at + 8) (cue_at s.now at)) }
{
    let point = read_cue(s, at)?;
    let start = cue_start(base, point.sample_index);
    Ok(Some(ReadCue::Point(start, point.id)))
}

// The next cue from a cursor, and the cursor after it.
fn step(
    s: &[u8],
    offsets: &[u32],
    blocks: usize,
    start: Option<usize>,
    format: DspFormat,
    c: CueIterator,
) -> Result<(Option<ReadCue>, CueIterator), Refusal>
    ensures { step_says c result ≡ cue_step s.now (record_with offsets.now blocks start format) c }
{
    let count = blocks.min(offsets.len());
    let due = c.due;
    let mut place = c.place;
    let mut base = c.base;
    for block in c.block..count {
        if loop_here(due, start, block) {
            let cursor = CueIterator {
                block,
                place,
                base,
                due: false,
            };
            return Ok((Some(ReadCue::Loop(base)), cursor));
        }
        let offset = offsets[block];
        let header = read_header(s, offset)?;
        if place < header.cues {
            let at = offset as usize + BLOCK_HEADER_SIZE + CUE_POINT_SIZE * place;
            let point = point_at(s, at, base)?;
            let cursor = CueIterator {
                block,
                place: place + 1,
                base,
                due,
            };
            return Ok((point, cursor));
        }
        place = 0;
        base = base.wrapping_add(num_samples(header.end_address, format));
    }
    let cursor = CueIterator {
        block: c.block.max(count),
        place,
        base,
        due,
    };
    Ok((None, cursor))
}

// The next cue from a cursor, by the parts of the record that it needs. Lent, they need not be copied for each of many calls.
pub fn cue_from(
    s: &[u8],
    offsets: &[u32],
    blocks: usize,
    start: Option<usize>,
    format: DspFormat,
    c: CueIterator,
) -> CueCall
    ensures { cue_called result ≡ cue_step s.now (record_with offsets.now blocks start format) c }
{
    match step(s, offsets, blocks, start, format, c) {
        Ok((cue, cursor)) => CueCall {
            answer: Ok(cue),
            cursor,
        },
        Err(refusal) => CueCall {
            answer: Err(refusal),
            cursor: c,
        },
    }
}

// The next cue from a cursor. A refused call leaves the cursor.
pub fn next_cue(s: &[u8], r: HpsReader, c: CueIterator) -> CueCall
    requires { Readable r }
    ensures { cue_called result ≡ cue_step s.now r c }
{
    let format = r.channels[0].format;
    cue_from(s, &r.offsets, r.blocks, r.loop_start, format, c)
}
