// The reading calls and the listing. A call gives 0, a refusal's number, END, NO_RECORD or NO_ROOM; only with 0 are the numbers that it gives set, but for the
// position of a block read (also with 1) and what cue calls give (also with END).
ghost use Rattle.std.specs.Prelude.{◌≡◌, ◌<◌, length};
ghost use Rattle.reader.specs.OpeningAndReading.{opening, block_read, data_remaining};
ghost use Rattle.c_opened.specs.KeptReader.{reader_in};
ghost use Rattle.c_cues.specs.KeptCues.{CuesLent, cues_number, cues_lent};
ghost use Rattle.hps.specs.Exported.{open_number, kept_after, on_record, block_number, BlockLent, block_lent, remaining_number, addresses_after};
ghost use Rattle.layout.specs.Puts.{put_at};
ghost use Rattle.key_listing.specs.MarkingKey.{listing_lines};
ghost use Rattle.key_listing.specs.Filling.{lines_fitting};
ghost use Rattle.layout.specs.Refusals.{block_limit};

use crate::{END, NO_RECORD, NO_ROOM};
use c_cues::cue_calls;
use c_opened::opened::{OPENED_SIZE, kept_reader};
use c_opened::put::put_opened;
use key_listing::listing::fill;
use key_listing::start::start_listing;
use layout::limits::BLOCK_LIMIT;
use reader_block::read_block;
use reader_open::open;
use reader_remaining::data_remaining;

// Opens a slot, and keeps the record in the lent bytes.
#[unsafe(no_mangle)]
pub extern "C" fn hps_open(slot: &[u8], kept: &mut [u8]) -> u32
    ensures value { result ≡ open_number (length kept.old) (opening slot.now) }
    ensures kept_after { kept.new ≡ kept_after kept.old slot.now (opening slot.now) }
{
    if kept.len() < OPENED_SIZE {
        return NO_ROOM;
    }
    match open(slot) {
        Ok(r) => {
            put_opened(kept, slot, r.count, r.loop_start, &r.offsets[..r.blocks]);
            0
        }
        Err(refusal) => refusal.into(),
    }
}

// The position after this one, no further than a record has blocks.
fn past(position: usize) -> usize
    ensures { position < block_limit → position < result }
{
    if position < BLOCK_LIMIT {
        position + 1
    } else {
        BLOCK_LIMIT
    }
}

// Block read: where the data lies in the slot, the block's length and context, and the position after the call.
#[unsafe(no_mangle)]
pub extern "C" fn hps_block(
    slot: &[u8],
    kept: &[u8],
    channel: usize,
    position: &mut usize,
    start: &mut usize,
    end: &mut usize,
    length: &mut u64,
    context: &mut u16,
    last: &mut i16,
    oldest: &mut i16,
) -> u32
    ensures value { result ≡ on_record (reader_in kept.now) (block_number (block_read slot.now (reader_in kept.now) channel position.old)) }
    ensures fact { ◌≡◌ {A = BlockLent}
        (record {
          position = position.exit.now;
          start = start.new;
          end = end.new;
          addresses = length.new;
          scale = context.new;
          last = last.new;
          oldest = oldest.new;
        })
        (block_lent (record {
          position = position.entry.now;
          start = start.old;
          end = end.old;
          addresses = length.old;
          scale = context.old;
          last = last.old;
          oldest = oldest.old;
        })
        (block_read slot.now (reader_in kept.now) channel position.entry.now)) }
{
    let at = *position;
    let Ok(r) = kept_reader(kept, at, past(at)) else {
        return NO_RECORD;
    };
    let call = read_block(slot, r, channel, at);
    *position = call.position;
    match call.answer {
        Ok(Some(block)) => {
            let c = block.context;
            *start = block.start;
            *end = block.end;
            *length = block.length;
            *context = c.predictor_and_scale;
            *last = c.last;
            *oldest = c.oldest;
            0
        }
        Ok(None) => END,
        Err(refusal) => refusal.into(),
    }
}

// Addresses remaining from a position on.
#[unsafe(no_mangle)]
pub extern "C" fn hps_remaining(
    slot: &[u8],
    kept: &[u8],
    position: usize,
    addresses: &mut u64,
) -> u32
    ensures value { result ≡ on_record (reader_in kept.now) (remaining_number (data_remaining slot.now (reader_in kept.now) position)) }
    ensures addresses_after { addresses.new ≡ addresses_after (reader_in kept.now) addresses.old (data_remaining slot.now (reader_in kept.now) position) }
{
    let Ok(r) = kept_reader(kept, position, BLOCK_LIMIT) else {
        return NO_RECORD;
    };
    match data_remaining(slot, r, position) {
        Ok(n) => {
            *addresses = n;
            0
        }
        Err(refusal) => refusal.into(),
    }
}

// Cue calls from a cursor on, until out is full, the cues end or one is refused; how many cues were given, and the cursor after them. A refusal that comes after
// cues is left to the next call.
#[unsafe(no_mangle)]
pub extern "C" fn hps_cues(
    slot: &[u8],
    kept: &[u8],
    cursor: &mut [u8],
    out: &mut [u8],
    cues: &mut usize,
) -> u32
    ensures value { result ≡ cues_number slot.now kept.now (record { cursor = cursor.entry.now; out = out.old; cues = cues.old }) }
    ensures fact { ◌≡◌ {A = CuesLent} (record { cursor = cursor.exit.now; out = out.new; cues = cues.new })
        (cues_lent slot.now kept.now (record { cursor = cursor.entry.now; out = out.old; cues = cues.old })) }
{
    match cue_calls(slot, kept, cursor, out, cues) {
        Ok(()) => 0,
        Err(failure) => failure.into(),
    }
}

// The listing from its start: as many whole lines as fit into out, and how many bytes they are.
#[unsafe(no_mangle)]
pub extern "C" fn hps_listing(slot: &[u8], out: &mut [u8]) -> usize
    ensures value { result ≡ length (lines_fitting (length out.old) (listing_lines slot.now)) }
    ensures out_after { out.new ≡ put_at out.old 0 (lines_fitting (length out.old) (listing_lines slot.now)) }
{
    let start = start_listing(slot);
    let r = start.reader;
    let stage = start.stage;
    let filled = fill(slot, r, stage, out);
    filled.length
}
