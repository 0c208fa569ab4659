// The writer's record in bytes.
ghost use Rattle.std.specs.Prelude.{◌≡◌, ◌+◌, ◌*◌, ◌<◌, ◌≤◌, ◌^◌, length};
ghost use Rattle.std.proofs.Math.Seq.{slice};
ghost use Rattle.layout.specs.Records.{padded_size};
ghost use Rattle.layout.specs.Puts.{put_at};
ghost use Rattle.writer.specs.Loading.{any_loop, mode_of};
ghost use Rattle.writer.specs.Calls.{blank};
ghost use Rattle.c_record.specs.Fields.{fields_of, writer_of};
ghost use Rattle.c_record.specs.KeptWriter.{loop_offset, fields_in, places_good, sums_good, marks_good, loops_within, sensible, stream_in, writer_in, where_held, taken_in, held_in};
ghost use Rattle.writer_assign_cues.specs.Taking.{filled_bytes, Taking};
ghost use Rattle.c_record.specs.KeptSides.{table_in, cues_at, where_kind};
ghost use Rattle.layout.specs.Refusals.{cue_limit};

use crate::places::{
    BASE_AT, BLOCKS_AT, CHANNELS_AT, COUNT_AT, CUES_AT, FINISHED_AT, ID_AT, LAST_AT, LEFT_AT,
    LOADER_SIZE, LOOP_AT, MODE_AT, NEXT_AT, OFFSET_AT, RIGHT_AT, SLOT_AT, SUM_AT,
};
use crate::{Fields, cues_in, side_in};
use c_opened::failure::Failure;
use layout::FrameContext;
use layout::limits::{BLOCK_LIMIT, CUE_LIMIT, LENGTH_LIMIT, SLOT_LIMIT};
use layout_number_or_zero::{long, word};
use writer::{ChannelBlock, CueTable, HpsWriter, Looping, Setup, Stream};
use writer_assign_cues::{Taken, any_loop, put_taken, take};

// No block of the stream is the loop block.
const NOWHERE: u64 = 0xFFFF_FFFF_FFFF_FFFF;

// 0 Disabled, 1 Enabled, any other number Auto.
pub fn mode_of(number: u32) -> Looping
    ensures { result ≡ mode_of number }
{
    match number {
        0 => Looping::Disabled,
        1 => Looping::Enabled,
        _ => Looping::Auto,
    }
}

// The same, of 0, 1 and 2 alone.
pub fn mode_in(number: u32) -> Result<Looping, Failure>
    ensures { result ≡ where_kind number (mode_of number) }
{
    if number > 2 {
        return Err(Failure::NoKind);
    }
    Ok(mode_of(number))
}

#[tactic(auto, unfolding(crate::specs::KeptWriter::loop_offset))]
fn loop_of(number: u64) -> Option<usize>
    ensures { result ≡ loop_offset number }
{
    if number == NOWHERE {
        None
    } else {
        Some(number as usize)
    }
}

// Whether the loop block's offset is not beyond this one.
fn loops_within(at: Option<usize>, offset: usize) -> bool
    ensures { result ≡ loops_within at offset }
{
    match at {
        None => true,
        Some(n) => n <= offset,
    }
}

// Whether the places in slot and table are within their limits.
#[tactic(auto, unfolding(crate::specs::KeptWriter::places_good))]
fn places_good(slot: usize, offset: usize, count: usize, next: usize, id: u32) -> bool
    ensures { result ≡ places_good slot offset count next id }
{
    slot <= SLOT_LIMIT
        && offset <= slot
        && count <= CUE_LIMIT
        && next <= count
        && id as usize <= next + 1
}

// Whether the sums can be those of so many blocks.
#[tactic(auto, unfolding(crate::specs::KeptWriter::sums_good))]
fn sums_good(blocks: usize, base: u64, sum: u64) -> bool
    ensures { result ≡ sums_good blocks base sum }
{
    if blocks > BLOCK_LIMIT {
        return false;
    }
    let most = LENGTH_LIMIT as u64 * blocks as u64;
    base <= most && sum <= most && 2 * blocks as u64 <= sum
}

// Whether the marks can be those of so many blocks.
#[tactic(auto, unfolding(crate::specs::KeptWriter::marks_good))]
fn marks_good(blocks: usize, last: bool, finished: bool) -> bool
    ensures { result ≡ marks_good blocks last finished }
{
    if last { blocks > 0 } else { !finished }
}

// Whether the numbers can be those of a record that a loading call gives.
#[tactic(auto, unfolding(crate::specs::KeptWriter::sensible))]
fn is_sensible(f: Fields) -> bool
    ensures { result ≡ sensible f }
{
    let s = f.stream;
    let loopat = s.loopat;
    places_good(f.setup.slot, s.offset, f.count, s.next, s.id)
        && sums_good(s.blocks, s.base, s.sum)
        && marks_good(s.blocks, s.last, f.finished)
        && loops_within(loopat, s.offset)
}

// The numbers of the record as they stand there.
#[tactic(auto, unfolding(crate::specs::KeptWriter::fields_in))]
fn fields_in(kept: &[u8]) -> Fields
    ensures { result ≡ fields_in kept.now }
{
    // A number that is no mode's stands for Auto.
    let mode = mode_of(word(kept, MODE_AT));
    let setup = Setup {
        slot: long(kept, SLOT_AT) as usize,
        channels: long(kept, CHANNELS_AT) as usize,
        mode,
    };
    let loopat = loop_of(long(kept, LOOP_AT));
    let left = side_in(kept, LEFT_AT);
    let right = side_in(kept, RIGHT_AT);
    let stream = Stream {
        next: long(kept, NEXT_AT) as usize,
        id: word(kept, ID_AT),
        base: long(kept, BASE_AT),
        offset: long(kept, OFFSET_AT) as usize,
        loopat,
        blocks: long(kept, BLOCKS_AT) as usize,
        sum: long(kept, SUM_AT),
        left,
        right,
        last: word(kept, LAST_AT) != 0,
    };
    Fields {
        setup,
        count: long(kept, COUNT_AT) as usize,
        stream,
        finished: word(kept, FINISHED_AT) != 0,
    }
}

// The record of a refused begin, of a slot of no bytes: it stands for bytes that hold no record.
fn no_stream() -> Fields
    ensures { result ≡ fields_of blank }
{
    let side = ChannelBlock {
        rate: 0,
        length: 0,
        coefficients: [0i16; 16],
        gain: 0,
        context: FrameContext {
            predictor_and_scale: 0,
            last: 0,
            oldest: 0,
        },
    };
    let setup = Setup {
        slot: 0,
        channels: 0,
        mode: Looping::Disabled,
    };
    let stream = Stream {
        next: 0,
        id: 0,
        base: 0,
        offset: 0,
        loopat: None,
        blocks: 0,
        sum: 0,
        left: side,
        right: side,
        last: false,
    };
    Fields {
        setup,
        count: 0,
        stream,
        finished: false,
    }
}

// The record that lent bytes hold, without its table; that of a refused begin where they hold none.
pub fn stream_in(kept: &[u8]) -> Fields
    ensures { result ≡ stream_in kept.now }
{
    if kept.len() < LOADER_SIZE {
        return no_stream();
    }
    let f = fields_in(kept);
    if is_sensible(f) { f } else { no_stream() }
}

// The same where they hold one, of a slot that has bytes.
pub fn kept_stream(kept: &[u8]) -> Result<Fields, Failure>
    ensures { result ≡ where_held (stream_in kept.now) (stream_in kept.now) }
{
    let f = stream_in(kept);
    if f.setup.slot == 0 {
        return Err(Failure::NoRecord);
    }
    Ok(f)
}

impl From<HpsWriter> for Fields {
    ghost from_gives = { λ w f. f ≡ fields_of w };

    fn from(w: HpsWriter) -> Fields {
        let setup = w.setup;
        let stream = w.stream;
        Fields {
            setup,
            count: w.table.count,
            stream,
            finished: w.finished,
        }
    }
}

// The record of these fields, with the table of the lent bytes.
fn with_table(kept: &[u8], f: Fields) -> HpsWriter
    requires { f.count ≤ cue_limit }
    ensures { result ≡ writer_of (table_in kept.now cues_at f.count) f }
{
    let setup = f.setup;
    let stream = f.stream;
    let cues = cues_in(kept, CUES_AT, f.count);
    HpsWriter {
        setup,
        table: CueTable {
            cues,
            count: f.count,
        },
        stream,
        finished: f.finished,
    }
}

// The whole record. Whatever the bytes are, it meets the premise of the loading calls.
pub fn writer_in(kept: &[u8]) -> HpsWriter
    ensures { result ≡ writer_in kept.now }
{
    with_table(kept, stream_in(kept))
}

// The same where the bytes hold one.
pub fn kept_writer(kept: &[u8]) -> Result<HpsWriter, Failure>
    ensures { result ≡ where_held (stream_in kept.now) (writer_in kept.now) }
{
    let f = kept_stream(kept)?;
    Ok(with_table(kept, f))
}

// The cues that a block takes of the table: where none is left the table is not looked into.
pub fn take_kept(kept: &[u8], f: Fields, end: u64, last: bool) -> Taken
    requires { (f.stream.next ≤ f.count) × (f.count ≤ cue_limit) }
    ensures { result ≡ taken_in kept.now f.stream.next f.count end last }
{
    let from = f.stream.next;
    let count = f.count;
    if from == count {
        return Taken {
            to: from,
            points: 0,
            asked: false,
        };
    }
    let cues = cues_in(kept, CUES_AT, count);
    take(cues, from, count, end, last)
}

// Whether the table has a Loop, as far as that counts: under Enabled, before there is a loop block.
#[tactic(auto, unfolding(crate::specs::KeptWriter::held_in))]
pub fn held_kept(kept: &[u8], f: Fields) -> bool
    requires { f.count ≤ cue_limit }
    ensures { result ≡ held_in f.setup.mode f.stream.loopat (any_loop (slice 0 f.count (table_in kept.now cues_at f.count))) }
{
    match (f.setup.mode, f.stream.loopat) {
        (Looping::Enabled, None) => {
            let cues = cues_in(kept, CUES_AT, f.count);
            any_loop(cues, f.count)
        }
        _ => false,
    }
}

// The bytes of the cues that a block takes of the table, which is not looked into where there are none.
pub fn put_taken_kept(buf: &mut [u8], at: usize, kept: &[u8], f: Fields, taken: Taken)
    requires count_le_cue_limit { (f.count ≤ cue_limit) × (taken.to ≤ cue_limit) × (f.stream.id + cue_limit < 2 ^ 32) }
    requires taking { Taking (table_in kept.now cues_at f.count) f.stream.next taken.to taken.points }
    requires points_in_bounds { at + padded_size (8 * taken.points) ≤ length buf.old }
    ensures { buf.new ≡ put_at buf.old at (filled_bytes f.stream.base f.stream.id (slice f.stream.next taken.to (table_in kept.now cues_at f.count))) }
{
    if taken.points == 0 {
        return;
    }
    let cues = cues_in(kept, CUES_AT, f.count);
    let s = f.stream;
    put_taken(buf, at, cues, s.next, taken.to, s.base, s.id);
}
