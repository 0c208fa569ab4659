// Push on a record in lent bytes.
#![tactic(auto)]

ghost use Rattle.std.specs.Prelude.{◌≡◌, ◌<◌, eqb};
ghost use Rattle.layout.specs.Choice.{pick};
ghost use Rattle.writer.specs.Calls.{push_of};
ghost use Rattle.writer.specs.Loading.{push_args};
ghost use Rattle.c_record.specs.KeptWriter.{stream_in, writer_in};
ghost use Rattle.c_opened.specs.Failures.{failure_number};
ghost use Rattle.c_loading.specs.KeptLoading.{kept_says, numbered, on_kept, given_after, bytes_pushed};

use c_opened::failure::Failure;
use c_record::Fields;
use c_record::loader::{held_kept, kept_stream, put_taken_kept, take_kept};
use c_record_put::put_pushed;
use layout::limits::BLOCK_HEADER_SIZE;
use layout_put_block::put_header;
use writer::{ChannelBlock, Place};
use writer_push::put_data;
use writer_push_plan::{block_end, plan_push};

// Why a push with a side too short is refused: that the bytes hold no record comes first.
pub fn without_side(kept: &[u8]) -> Failure
    ensures { failure_number result ≡ pick (eqb (stream_in kept.now).setup.slot 0) 254 251 }
{
    match kept_stream(kept) {
        Ok(_) => Failure::NoSide,
        Err(none) => none,
    }
}

// Push: as push on the record that the bytes hold, without a copy of its table.
pub fn push_kept(
    kept: &mut [u8],
    channels: usize,
    left: ChannelBlock,
    right: ChannelBlock,
    left_data: &[u8],
    right_data: &[u8],
    last: bool,
    lent: &mut [u8],
) -> Result<Place, Failure>
    requires { (left.length < 4294967296) × (right.length < 4294967296) }
    ensures fails { numbered result }
    ensures given { let o = push_of (writer_in kept.old) (push_args channels left right left_data.now right_data.now last) lent.old in
        (kept_says result ≡ on_kept kept.old o)
        × (lent.new ≡ given_after (kept_says result).number lent.old o.lent)
        × (kept.new ≡ given_after (kept_says result).number kept.old (bytes_pushed kept.old o))
        × (writer_in kept.new ≡ given_after (kept_says result).number (writer_in kept.old) o.writer) }
{
    let f = kept_stream(kept)?;
    let end = block_end(f.stream.base, left.length);
    let taken = take_kept(kept, f, end, last);
    let held = held_kept(kept, f);
    let planned = plan_push(
        f.setup,
        f.stream,
        taken,
        held,
        end,
        channels,
        left,
        right,
        left_data.len(),
        right_data.len(),
        last,
        lent.len(),
    )?;
    // An empty push: no block, and nothing to keep.
    let Some(plan) = planned else {
        let nowhere = Place {
            offset: 0,
            length: 0,
        };
        return Ok(nowhere);
    };
    put_header(lent, 0, plan.header);
    put_taken_kept(lent, BLOCK_HEADER_SIZE, kept, f, taken);
    put_data(lent, plan.start, channels, left_data, right_data);
    let next = Fields {
        stream: plan.after,
        ..f
    };
    put_pushed(kept, next);
    Ok(Place {
        offset: f.stream.offset,
        length: plan.size,
    })
}
