// Cue calls on a kept record, one after the other: the cursor and the cues are in lent bytes.
#![tactic(auto)]

ghost use Rattle.std.specs.Prelude.{◌≡◌, ◌+◌, ◌/◌, ◌<◌, ◌≤◌, length};
ghost use Rattle.layout.specs.Puts.{put_at};
ghost use Rattle.reader.specs.declared.HpsReader.{HpsReader};
ghost use Rattle.reader.specs.CuesReadBack.{cursor};
ghost use Rattle.reader_cues.specs.CueAnswers.{PartsOf};
ghost use Rattle.c_opened.specs.Failures.{told};
ghost use Rattle.c_cues.specs.KeptCues.{cursor_in, CursorBack, put_cursor, filled_of, filled_says, cues_given, given_of, CuesLent, number_after, cues_number, gives_cues, cues_lent};

use crate::bytes::put_answer;
use c_opened::failure::Failure;
use c_opened::fields::put_long;
use c_opened::opened::kept_reader;
use layout::DspFormat;
use layout::limits::BLOCK_LIMIT;
use layout::refusal::Refusal;
use layout_number_or_zero::{long, word};
use layout_put::put_u32;
use reader::{CueIterator, HpsReader};
use reader_cues::{cue_from, first_cursor};

mod bytes; // bytes.rt: a cue in lent bytes

const CURSOR_SIZE: usize = 32;

const CUE_SIZE: usize = 16;

#[derive(Clone, Copy)]
struct CuesFilled {
    // Why the last call gave no cue, if it gave none.
    end: Result<(), Failure>,
    cues: usize,
    cursor: CueIterator,
}

// Which cue a cursor's bytes stand before. All zeros stand before the first.
fn cursor_in(cursor: &[u8], r: HpsReader) -> CueIterator
    ensures { result ≡ cursor_in r cursor.now }
{
    let first = first_cursor(r);
    CueIterator {
        block: long(cursor, 0) as usize,
        place: long(cursor, 8) as usize,
        base: long(cursor, 16),
        due: first.due & (word(cursor, 24) == 0),
    }
}

fn put_cursor(cursor: &mut [u8], c: CueIterator)
    ensures { cursor.new ≡ put_cursor cursor.old c }
{
    put_long(cursor, 0, c.block as u64);
    put_long(cursor, 8, c.place as u64);
    put_long(cursor, 16, c.base);
    if c.due {
        put_u32(cursor, 24, 0);
    } else {
        put_u32(cursor, 24, 1);
    }
}

// What put_cursor puts, cursor_in reads back; zeros are the first cursor.
pub fn cursor_back()
    ensures { CursorBack }
{}

fn filled(
    end: Result<(), Failure>,
    cues: usize,
    block: usize,
    place: usize,
    base: u64,
    due: bool,
) -> CuesFilled
    ensures { filled_says result ≡ filled_of (told end) cues (cursor block place base due) }
{
    let cursor = CueIterator {
        block,
        place,
        base,
        due,
    };
    CuesFilled { end, cues, cursor }
}

// As many cues as fit.
fn fill_cues(
    s: &[u8],
    offsets: &[u32],
    blocks: usize,
    start: Option<usize>,
    format: DspFormat,
    from: CueIterator,
    out: &mut [u8],
) -> CuesFilled
    requires { blocks ≤ length offsets.now }
    ensures value { (r : HpsReader) → PartsOf r offsets.now blocks start format → filled_says result ≡ given_of (cues_given s.now r (length out.old / 16) from) }
    ensures out_after { (r : HpsReader) → PartsOf r offsets.now blocks start format
        → out.new ≡ put_at out.old 0 (cues_given s.now r (length out.old / 16) from).bytes }
{
    // The cursor by its numbers: a cursor as a whole would be copied some times for each cue.
    let mut block = from.block;
    let mut place = from.place;
    let mut base = from.base;
    let mut due = from.due;
    let room = out.len() / CUE_SIZE;
    for cues in 0..room {
        let c = CueIterator {
            block,
            place,
            base,
            due,
        };
        let call = cue_from(s, offsets, blocks, start, format, c);
        let after = call.cursor;
        block = after.block;
        place = after.place;
        base = after.base;
        due = after.due;
        if let Err(failure) = put_answer(call.answer, out, CUE_SIZE * cues) {
            return filled(Err(failure), cues, block, place, base, due);
        }
    }
    filled(Ok(()), room, block, place, base, due)
}

// Whether calls that come to this give cues; else what was lent is left.
fn gives(end: Result<(), Failure>) -> bool
    ensures { result ≡ gives_cues (told end) }
{
    matches!(end, Ok(()) | Err(Failure::End))
}

// What calls come to of which the last gave this, after so many cues: a refusal that comes after cues is left to the next call.
fn end_after(cues: usize, end: Result<(), Failure>) -> Result<(), Failure>
    ensures { told result ≡ number_after cues (told end) }
{
    if cues > 0 && !gives(end) {
        return Ok(());
    }
    end
}

// Cue calls from a cursor on, until out is full, the cues end or one is refused; how many cues were given, and the cursor after them.
pub fn cue_calls(
    slot: &[u8],
    kept: &[u8],
    cursor: &mut [u8],
    out: &mut [u8],
    cues: &mut usize,
) -> Result<(), Failure>
    ensures value { told result ≡ cues_number slot.now kept.now (record { cursor = cursor.entry.now; out = out.old; cues = cues.old }) }
    ensures fact { ◌≡◌ {A = CuesLent} (record { cursor = cursor.exit.now; out = out.new; cues = cues.new })
        (cues_lent slot.now kept.now (record { cursor = cursor.entry.now; out = out.old; cues = cues.old })) }
{
    if cursor.len() < CURSOR_SIZE {
        return Err(Failure::NoRoom);
    }
    let r = kept_reader(kept, 0, BLOCK_LIMIT)?;
    if out.len() < CUE_SIZE {
        return Err(Failure::Refused(Refusal::LentTooShort));
    }
    let c = cursor_in(cursor, r);
    let start = r.loop_start;
    let left = r.channels[0];
    let format = left.format;
    let offsets = r.offsets;
    let filled = fill_cues(slot, &offsets, r.blocks, start, format, c, out);
    let end = end_after(filled.cues, filled.end);
    if gives(end) {
        let after = filled.cursor;
        put_cursor(cursor, after);
        *cues = filled.cues;
    }
    end
}
