// The writer's record put into lent bytes after a push: numbers and sides.
#![tactic(auto)]

ghost use Rattle.std.specs.Prelude.{◌≡◌, ◌++◌, ◌+◌, ◌<◌, ◌≤◌, length};
ghost use Rattle.layout.specs.Puts.{put_at};
ghost use Rattle.c_record_put.specs.KeptRecord.{side_bytes, pushed_bytes};
ghost use Rattle.c_record.specs.KeptSides.{cues_at, left_at, side_size};

use crate::numbers::put_numbers;
use c_record::Fields;
use c_record::places::{LEFT_AT, RIGHT_AT};
use layout_put::{put_context, put_u16, put_u32};
use layout_put_header::put_coefficients;
use writer::ChannelBlock;

pub mod numbers; // numbers.rt: the record's numbers
pub mod table; // table.rt: its table of cues

// How many blocks there are after the first push.
const FIRST: usize = 1;

fn put_side(buf: &mut [u8], at: usize, side: ChannelBlock)
    requires { (at < 4096) × (at + side_size ≤ length buf.old) }
    ensures { buf.new ≡ put_at buf.old at (side_bytes side) }
{
    put_u32(buf, at, side.rate);
    put_u32(buf, at + 4, (side.length % 4294967296) as u32);
    let coefficients = side.coefficients;
    put_coefficients(buf, at + 8, coefficients);
    put_u16(buf, at + 40, side.gain);
    let context = side.context;
    put_context(buf, at + 42, context);
}

// The first block's sides.
pub fn put_sides(kept: &mut [u8], left: ChannelBlock, right: ChannelBlock)
    requires { cues_at ≤ length kept.old }
    ensures { kept.new ≡ put_at kept.old left_at (side_bytes left ++ side_bytes right) }
{
    put_side(kept, LEFT_AT, left);
    put_side(kept, RIGHT_AT, right);
}

// The numbers after a push, and after the first the sides: after a later block they stand there already.
pub fn put_pushed(kept: &mut [u8], f: Fields)
    requires { cues_at ≤ length kept.old }
    ensures { kept.new ≡ put_at kept.old 0 (pushed_bytes f) }
{
    put_numbers(kept, f);
    if f.stream.blocks == FIRST {
        put_sides(kept, f.stream.left, f.stream.right);
    }
}
