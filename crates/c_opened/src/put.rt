// The opening record put into lent bytes.
ghost use mathlib.Core.List.{flat_map};
ghost use Rattle.std.specs.Prelude.{◌≡◌, ◌≤◌, length, take};
ghost use Rattle.layout.specs.Records.{be32, file_header_size};
ghost use Rattle.layout.specs.Puts.{put_at};
ghost use Rattle.c_opened.specs.KeptReader.{loop_number, file_kept, opened_parts, offsets_at, opened_size};
ghost use Rattle.layout.specs.Refusals.{block_limit};

use crate::opened::{BLOCKS_AT, LOOP_AT, NO_LOOP, OFFSETS_AT, OFFSETS_SIZE};
use layout::limits::{CHANNEL_SIZE, FILE_HEADER_SIZE};
use layout_put::{put_bytes, put_fill, put_u32};

const SECOND_AT: usize = FILE_HEADER_SIZE - CHANNEL_SIZE;

fn loop_number(start: Option<usize>) -> u32
    ensures { result ≡ loop_number start }
{
    match start {
        None => NO_LOOP,
        Some(i) => (i % 4294967296) as u32,
    }
}

// These offsets, one after the other.
fn put_offsets(kept: &mut [u8], offsets: &[u32])
    requires { (length offsets.now ≤ block_limit) × (opened_size ≤ length kept.old) }
    ensures { kept.new ≡ put_at kept.old offsets_at (flat_map be32 offsets.now) }
{
    for (i, offset) in offsets.iter().enumerate() {
        put_u32(kept, OFFSETS_AT + 4 * i, *offset);
    }
}

// The file header; the second channel's place has zeros where it is not in use.
fn put_file(kept: &mut [u8], s: &[u8], count: usize)
    requires { (file_header_size ≤ length s.now) × (opened_size ≤ length kept.old) }
    ensures { kept.new ≡ put_at kept.old 0 (file_kept s.now count) }
{
    if count == 2 {
        put_bytes(kept, 0, &s[..FILE_HEADER_SIZE]);
        return;
    }
    put_bytes(kept, 0, &s[..SECOND_AT]);
    put_fill(kept, SECOND_AT, CHANNEL_SIZE, 0);
}

// The record of a slot that was opened, by its parts: its blocks' offsets are lent, so that none is copied on the way.
pub fn put_opened(kept: &mut [u8], s: &[u8], count: usize, start: Option<usize>, offsets: &[u32])
    requires { (length offsets.now ≤ block_limit) × ((file_header_size ≤ length s.now) × (opened_size ≤ length kept.old)) }
    ensures { kept.new ≡ put_at kept.old 0 (opened_parts s.now count (length offsets.now) start offsets.now) }
{
    let blocks = offsets.len();
    put_file(kept, s, count);
    put_u32(kept, BLOCKS_AT, (blocks % 4294967296) as u32);
    put_u32(kept, LOOP_AT, loop_number(start));
    put_offsets(kept, offsets);
    put_fill(kept, OFFSETS_AT + 4 * blocks, OFFSETS_SIZE - 4 * blocks, 0);
}
