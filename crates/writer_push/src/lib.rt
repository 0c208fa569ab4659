// Push: the block's bytes by its plan, and the record afterwards.
#![tactic(auto)]

ghost use mathlib.Core.List.{flat_map};
ghost use Rattle.std.specs.Prelude.{◌≡◌, ◌+◌, length};
ghost use Rattle.layout.specs.Records.{padded};
ghost use Rattle.layout.specs.Puts.{put_at};
ghost use Rattle.writer.specs.Calls.{called, called_says, push_of, Good};
ghost use Rattle.writer.specs.Loading.{data_in};
ghost use Rattle.writer_push.specs.PushArguments.{push_said};

use layout::fields::inside;
use layout::limits::BLOCK_HEADER_SIZE;
use layout_put_block::{put_header, put_padded};
use layout_sizes::align;
use writer::{Called, ChannelBlock, HpsWriter, Place, Writes};
use writer_assign_cues::{any_loop, put_taken, take};
use writer_push_plan::{block_end, plan_push};

// Each channel's data, padded; where it does not fit wholly, nothing is changed.
pub fn put_data(buf: &mut [u8], at: usize, channels: usize, left: &[u8], right: &[u8])
    ensures { buf.new ≡ put_at buf.old at (flat_map padded (data_in channels left.now right.now)) }
{
    let first = align(left.len());
    if inside(buf.len(), at, first) {
        if channels != 2 {
            put_padded(buf, at, left);
            return;
        }
        let next = at + first;
        let second = align(right.len());
        if inside(buf.len(), next, second) {
            put_padded(buf, at, left);
            put_padded(buf, next, right);
        }
    }
}

// What a push takes: a block of each channel with its data, and whether it is the last. In mono the right side counts for nothing.
#[derive(Clone, Copy)]
pub struct PushArgs<'a> {
    pub channels: usize,
    pub left: ChannelBlock,
    pub right: ChannelBlock,
    pub left_data: &'a [u8],
    pub right_data: &'a [u8],
    pub last: bool,
}

// Push: the block is to go to the record's offset. An empty push has no block: it hands out no write.
pub fn push(w: HpsWriter, p: PushArgs<'_>, lent: &mut [u8]) -> Called
    requires { Good w }
    ensures value { called_says result ≡ called (push_of w (push_said p.entry) lent.old) }
    ensures lent_after { lent.new ≡ (push_of w (push_said p.entry) lent.old).lent }
    ensures good { Good result.writer }
{
    let s = w.stream;
    let cues = w.table.cues;
    let count = w.table.count;
    let end = block_end(s.base, p.left.length);
    let taken = take(cues, s.next, count, end, p.last);
    let held = any_loop(cues, count);
    let answer = plan_push(
        w.setup,
        s,
        taken,
        held,
        end,
        p.channels,
        p.left,
        p.right,
        p.left_data.len(),
        p.right_data.len(),
        p.last,
        lent.len(),
    );
    let plan = match answer {
        Ok(Some(plan)) => plan,
        Ok(None) => {
            return Called {
                answer: Ok(Writes::None),
                writer: w,
            };
        }
        Err(refusal) => {
            return Called {
                answer: Err(refusal),
                writer: w,
            };
        }
    };
    put_header(lent, 0, plan.header);
    put_taken(
        lent,
        BLOCK_HEADER_SIZE,
        cues,
        s.next,
        taken.to,
        s.base,
        s.id,
    );
    put_data(lent, plan.start, p.channels, p.left_data, p.right_data);
    Called {
        answer: Ok(Writes::One(Place {
            offset: s.offset,
            length: plan.size,
        })),
        writer: HpsWriter {
            stream: plan.after,
            ..w
        },
    }
}
