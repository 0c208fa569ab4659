// The table of cues of the writer's record put into lent bytes.
ghost use mathlib.Core.List.{flat_map};
ghost use Rattle.std.specs.Prelude.{◌≡◌, ◌+◌, ◌*◌, ◌<◌, ◌≤◌, length};
ghost use Rattle.layout.specs.Lists.{All};
ghost use Rattle.layout.specs.Puts.{put_at};
ghost use Rattle.writer.specs.Loading.{rank, range_length};
ghost use Rattle.c_record.specs.KeptSides.{table_in, loader_size, cues_at, cue_size};
ghost use Rattle.c_record_put.specs.KeptTable.{entry_bytes, EntryFits, table_put, first_of};
ghost use Rattle.layout.specs.Refusals.{cue_limit};

use c_opened::fields::put_long;
use c_record::places::{COUNT_AT, CUE_SIZE, CUES_AT};
use layout_put::put_u32;
use writer::{Cue, CueKind, CueTable};

// A kind's number, and the length of a range.
fn numbers_of(kind: CueKind) -> (u32, u64)
    ensures { (result.0 ≡ rank kind) × (result.1 ≡ range_length kind) }
{
    match kind {
        CueKind::Point => (0, 0),
        CueKind::Loop => (1, 0),
        CueKind::Range(n) => (2, n),
    }
}

fn put_cue(buf: &mut [u8], at: usize, c: Cue)
    requires { (at < 20000) × (at + cue_size ≤ length buf.old) }
    ensures buf_after { buf.new ≡ put_at buf.old at (entry_bytes c) }
    ensures entry_fits { EntryFits c }
{
    let (kind, range) = numbers_of(c.kind);
    put_long(buf, at, c.start);
    put_long(buf, at + 8, range);
    put_u32(buf, at + 16, kind);
    put_u32(buf, at + 20, c.name);
}

fn put_cues(buf: &mut [u8], at: usize, cues: &[Cue])
    requires { (at < 1000) × (length cues.now ≤ cue_limit) × (at + cue_size * length cues.now ≤ length buf.old) }
    ensures { (buf.new ≡ put_at buf.old at (flat_map entry_bytes cues.now)) × All EntryFits cues.now }
{
    for (i, cue) in cues.iter().enumerate() {
        put_cue(buf, at + CUE_SIZE * i, *cue);
    }
}

// The table's cues, and how many they are: read again, it has zeros after them.
pub fn put_table(kept: &mut [u8], table: &CueTable)
    requires { (table.now.count ≤ cue_limit) × (loader_size ≤ length kept.old) }
    ensures kept_after { kept.new ≡ table_put kept.old table.now.cues table.now.count }
    ensures n_after { table_in kept.new cues_at table.now.count ≡ first_of table.now.cues table.now.count }
{
    put_long(kept, COUNT_AT, table.count as u64);
    put_cues(kept, CUES_AT, &table.cues[..table.count]);
}
