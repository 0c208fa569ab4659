// The loading calls and the estimate. A call gives 0, a refusal's number, NO_RECORD, NO_KIND, NO_ROOM or NO_SIDE; only with 0 are the lent bytes and the numbers that it
// gives set.
ghost use Rattle.std.specs.Prelude.{◌≡◌};
ghost use Rattle.writer.specs.Loading.{mode_of};
ghost use Rattle.writer.specs.Estimate.{estimate_of};
ghost use Rattle.writer.specs.Calls.{begin_of, finish_of};
ghost use Rattle.c_record.specs.KeptSides.{sides_short};
ghost use Rattle.c_record.specs.KeptWriter.{writer_in};
ghost use Rattle.c_loading.specs.KeptLoading.{kept_says, call_of, where_room, on_kept, given_after, bytes_begun, bytes_cued, bytes_pushed, bytes_finished};
ghost use Rattle.hps.specs.Exported.{number_of, cue_on, cue_number, push_on, push_number, length_after};

use c_loading::{begin_kept, cue_kept, finish_kept};
use c_opened::failure::Failure;
use c_push::{push_kept, without_side};
use c_record::{kind_in, side_in, sides_short};
use writer::{Cue, Place};
use writer_estimate::estimate;

// Begin: keeps the writer's record, and gives the write's offset and length. The mode is 0 Disabled, 1 Enabled, 2 Auto.
// The mode by number: the C interface.
#[unsafe(no_mangle)]
pub extern "C" fn hps_begin(
    slot: usize,
    channels: usize,
    mode: u32,
    kept: &mut [u8],
    lent: &mut [u8],
    offset: &mut usize,
    length: &mut usize,
) -> u32
    ensures { let o = begin_of slot channels (mode_of mode) lent.old in
        (result ≡ (where_room kept.old mode (call_of o)).number)
        × (offset.new ≡ given_after result offset.old (call_of o).offset)
        × (length.new ≡ given_after result length.old (call_of o).length)
        × (lent.new ≡ given_after result lent.old o.lent)
        × (kept.new ≡ given_after result kept.old (bytes_begun kept.old o))
        × (writer_in kept.new ≡ given_after result (writer_in kept.old) o.writer) }
{
    match begin_kept(slot, channels, mode, kept, lent) {
        Ok(place) => {
            *offset = place.offset;
            *length = place.length;
            0
        }
        Err(failure) => failure.into(),
    }
}

// The kind by number: the C interface.
fn cue_asked(
    kept: &mut [u8],
    start: u64,
    kind: u32,
    range: u64,
    name: u32,
) -> Result<Place, Failure>
    ensures { let o = cue_on kept.old start kind range name in
        ((kept_says result).number ≡ cue_number kept.old kind o)
        × (kept.new ≡ given_after (kept_says result).number kept.old (bytes_cued kept.old o))
        × (writer_in kept.new ≡ given_after (kept_says result).number (writer_in kept.old) o.writer) }
{
    let kind = kind_in(kind, range)?;
    cue_kept(kept, Cue { start, kind, name })
}

// Cue: the kind is 0 a point, 1 a loop, 2 a range of this length.
// The kind by number: the C interface.
#[unsafe(no_mangle)]
pub extern "C" fn hps_cue(kept: &mut [u8], start: u64, kind: u32, range: u64, name: u32) -> u32
    ensures { let o = cue_on kept.old start kind range name in
        (result ≡ cue_number kept.old kind o)
        × (kept.new ≡ given_after result kept.old (bytes_cued kept.old o))
        × (writer_in kept.new ≡ given_after result (writer_in kept.old) o.writer) }
{
    match cue_asked(kept, start, kind, range, name) {
        Ok(_) => 0,
        Err(failure) => failure.into(),
    }
}

// Push: a side has 48 bytes: rate, length, 16 coefficients, gain, context. In mono the right side counts for nothing.
#[unsafe(no_mangle)]
pub extern "C" fn hps_push(
    kept: &mut [u8],
    channels: usize,
    left: &[u8],
    left_data: &[u8],
    right: &[u8],
    right_data: &[u8],
    last: bool,
    lent: &mut [u8],
    offset: &mut usize,
    length: &mut usize,
) -> u32
    ensures { let o = push_on kept.old channels left.now left_data.now right.now right_data.now last lent.old in
        (result ≡ push_number kept.old (sides_short channels left.now right.now) o)
        × (offset.new ≡ given_after result offset.old (call_of o).offset)
        × (length.new ≡ given_after result length.old (call_of o).length)
        × (lent.new ≡ given_after result lent.old o.lent)
        × (kept.new ≡ given_after result kept.old (bytes_pushed kept.old o))
        × (writer_in kept.new ≡ given_after result (writer_in kept.old) o.writer) }
{
    if sides_short(channels, left, right) {
        return without_side(kept).into();
    }
    let l = side_in(left, 0);
    let r = side_in(right, 0);
    match push_kept(kept, channels, l, r, left_data, right_data, last, lent) {
        Ok(place) => {
            *offset = place.offset;
            *length = place.length;
            0
        }
        Err(failure) => failure.into(),
    }
}

// Finish: the lent buffer's first 128 bytes are those of the writes to bytes 0-14, 16-127 and 15, in this order. Gives the finished length.
#[unsafe(no_mangle)]
pub extern "C" fn hps_finish(kept: &mut [u8], lent: &mut [u8], finished: &mut usize) -> u32
    ensures { let o = finish_of (writer_in kept.old) lent.old in
        (result ≡ (on_kept kept.old o).number)
        × (finished.new ≡ given_after result finished.old (call_of o).length)
        × (lent.new ≡ given_after result lent.old o.lent)
        × (kept.new ≡ given_after result kept.old (bytes_finished kept.old))
        × (writer_in kept.new ≡ given_after result (writer_in kept.old) o.writer) }
{
    match finish_kept(kept, lent) {
        Ok(place) => {
            *finished = place.length;
            0
        }
        Err(failure) => failure.into(),
    }
}

// The estimate of a finished length.
#[unsafe(no_mangle)]
pub extern "C" fn hps_estimate(
    lengths: &[usize],
    channels: usize,
    points: u32,
    length: &mut u64,
) -> u32
    ensures value { result ≡ number_of (estimate_of channels lengths.now points) }
    ensures length_after { length.new ≡ length_after length.old (estimate_of channels lengths.now points) }
{
    match estimate(lengths, channels, points) {
        Ok(n) => {
            *length = n;
            0
        }
        Err(refusal) => refusal.into(),
    }
}
