// The numbers of the writer's record put into lent bytes.
ghost use Rattle.std.specs.Prelude.{◌≡◌, ◌≤◌, length};
ghost use Rattle.layout.specs.Records.{be32};
ghost use Rattle.layout.specs.Puts.{put_at};
ghost use Rattle.c_record_put.specs.KeptNumbers.{loop_offset_number, places_bytes, sums_bytes, marks_bytes, number_bytes};
ghost use Rattle.c_record.specs.KeptSides.{left_at};

use c_opened::fields::put_long;
use c_record::Fields;
use c_record::places::{
    BASE_AT, BLOCKS_AT, CHANNELS_AT, COUNT_AT, FINISHED_AT, ID_AT, LAST_AT, LOOP_AT, MODE_AT,
    NEXT_AT, OFFSET_AT, SLOT_AT, SUM_AT,
};
use layout_put::put_u32;
use writer::Stream;

// No block of the stream is the loop block.
const NOWHERE: u64 = 0xFFFF_FFFF_FFFF_FFFF;

fn loop_number(at: Option<usize>) -> u64
    ensures { result ≡ loop_offset_number at }
{
    match at {
        None => NOWHERE,
        Some(n) => n as u64,
    }
}

fn put_places(kept: &mut [u8], f: Fields)
    requires { left_at ≤ length kept.old }
    ensures { kept.new ≡ put_at kept.old 0 (places_bytes f.setup.slot f.setup.channels f.count f.stream.next) }
{
    put_long(kept, SLOT_AT, f.setup.slot as u64);
    put_long(kept, CHANNELS_AT, f.setup.channels as u64);
    put_long(kept, COUNT_AT, f.count as u64);
    put_long(kept, NEXT_AT, f.stream.next as u64);
}

fn put_sums(kept: &mut [u8], s: Stream)
    requires { left_at ≤ length kept.old }
    ensures { kept.new ≡ put_at kept.old 32 (sums_bytes s.base s.offset s.blocks s.sum) }
{
    put_long(kept, BASE_AT, s.base);
    put_long(kept, OFFSET_AT, s.offset as u64);
    put_long(kept, BLOCKS_AT, s.blocks as u64);
    put_long(kept, SUM_AT, s.sum);
}

fn put_marks(kept: &mut [u8], f: Fields)
    requires { left_at ≤ length kept.old }
    ensures { kept.new ≡ put_at kept.old 64 (marks_bytes f.stream.loopat f.setup.mode f.stream.id f.stream.last f.finished) }
{
    put_long(kept, LOOP_AT, loop_number(f.stream.loopat));
    put_u32(kept, MODE_AT, f.setup.mode as u32);
    put_u32(kept, ID_AT, f.stream.id);
    put_u32(kept, LAST_AT, u32::from(f.stream.last));
    put_u32(kept, FINISHED_AT, u32::from(f.finished));
}

// The numbers of the record: its bytes before the sides.
pub fn put_numbers(kept: &mut [u8], f: Fields)
    requires { left_at ≤ length kept.old }
    ensures { kept.new ≡ put_at kept.old 0 (number_bytes f) }
{
    put_places(kept, f);
    put_sums(kept, f.stream);
    put_marks(kept, f);
}

// The mark of a finished stream.
pub fn put_finished(kept: &mut [u8])
    ensures { kept.new ≡ put_at kept.old 84 (be32 1) }
{
    put_u32(kept, FINISHED_AT, 1);
}
