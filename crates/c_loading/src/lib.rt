// Begin, cue and finish on a record in lent bytes.
#![tactic(auto)]

ghost use Rattle.std.specs.Prelude.{◌≡◌};
ghost use Rattle.writer.specs.Loading.{mode_of};
ghost use Rattle.writer.specs.Calls.{begin_of, cue_of, finish_of};
ghost use Rattle.c_record.specs.KeptWriter.{writer_in};
ghost use Rattle.c_loading.specs.KeptLoading.{kept_says, numbered, place_in, call_of, where_room, on_kept, given_after, bytes_begun, bytes_cued, bytes_finished};

use c_opened::failure::Failure;
use c_record::Fields;
use c_record::loader::{kept_writer, mode_in};
use c_record::places::LOADER_SIZE;
use c_record_put::numbers::{put_finished, put_numbers};
use c_record_put::put_sides;
use c_record_put::table::put_table;
use layout::refusal::Refusal;
use writer::{Cue, Place, Writes, begin};
use writer_cue::cue;
use writer_finish::finish;

// What an accepted reply hands out: the place of its one write, or as the length the finished one.
fn place_in(answer: Result<Writes, Refusal>) -> Result<Place, Failure>
    ensures { result ≡ place_in answer }
{
    Ok(match answer? {
        Writes::None => Place {
            offset: 0,
            length: 0,
        },
        Writes::One(place) => place,
        Writes::Three(finished, _, _, _) => Place {
            offset: 0,
            length: finished,
        },
    })
}

// Begin: the record is kept in the lent bytes, if they are enough for it. The mode is 0 Disabled, 1 Enabled, 2 Auto.
// The mode by number: the C interface.
pub fn begin_kept(
    slot: usize,
    channels: usize,
    mode: u32,
    kept: &mut [u8],
    lent: &mut [u8],
) -> Result<Place, Failure>
    ensures value { kept_says result ≡ where_room kept.old mode (call_of (begin_of slot channels (mode_of mode) lent.old)) }
    ensures fails { numbered result }
    ensures lent_after { lent.new ≡ given_after (kept_says result).number lent.old (begin_of slot channels (mode_of mode) lent.old).lent }
    ensures kept_after { kept.new ≡ given_after (kept_says result).number kept.old (bytes_begun kept.old (begin_of slot channels (mode_of mode) lent.old)) }
    ensures kept_after_2 { writer_in kept.new ≡ given_after (kept_says result).number (writer_in kept.old) (begin_of slot channels (mode_of mode) lent.old).writer }
{
    if kept.len() < LOADER_SIZE {
        return Err(Failure::NoRoom);
    }
    let looping = mode_in(mode)?;
    let call = begin(slot, channels, looping, lent);
    let place = place_in(call.answer)?;
    let f = Fields::from(call.writer);
    put_numbers(kept, f);
    put_sides(kept, f.stream.left, f.stream.right);
    Ok(place)
}

// Cue: it hands out no write.
pub fn cue_kept(kept: &mut [u8], c: Cue) -> Result<Place, Failure>
    ensures value { kept_says result ≡ on_kept kept.old (cue_of (writer_in kept.old) c) }
    ensures kept_after { kept.new ≡ given_after (kept_says result).number kept.old (bytes_cued kept.old (cue_of (writer_in kept.old) c)) }
    ensures kept_after_2 { writer_in kept.new ≡ given_after (kept_says result).number (writer_in kept.old) (cue_of (writer_in kept.old) c).writer }
{
    let w = kept_writer(kept)?;
    let call = cue(w, c);
    let place = place_in(call.answer)?;
    put_table(kept, &call.writer.table);
    Ok(place)
}

// Finish: gives the finished length; its three writes' bytes lie in the lent buffer one after the other.
pub fn finish_kept(kept: &mut [u8], lent: &mut [u8]) -> Result<Place, Failure>
    ensures value { kept_says result ≡ on_kept kept.old (finish_of (writer_in kept.old) lent.old) }
    ensures fails { numbered result }
    ensures lent_after { lent.new ≡ given_after (kept_says result).number lent.old (finish_of (writer_in kept.old) lent.old).lent }
    ensures kept_after { kept.new ≡ given_after (kept_says result).number kept.old (bytes_finished kept.old) }
    ensures kept_after_2 { writer_in kept.new ≡ given_after (kept_says result).number (writer_in kept.old) (finish_of (writer_in kept.old) lent.old).writer }
{
    let w = kept_writer(kept)?;
    let call = finish(w, lent);
    let place = place_in(call.answer)?;
    put_finished(kept);
    Ok(place)
}
