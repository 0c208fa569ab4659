// The cues that a block takes of the table, and their bytes (document 01, "Loading").
#![tactic(auto)]

ghost use Rattle.std.specs.Prelude.{◌≡◌, ◌+◌, ◌-◌, ◌*◌, ◌≤◌, ◌<◌, length, not, count_by};
ghost use Rattle.std.proofs.Math.Seq.{slice};
ghost use Rattle.std.specs.List.{list_any};
ghost use Rattle.layout.specs.Records.{padded_size, cue_bytes, cue_point_size};
ghost use Rattle.layout.specs.Puts.{put_at};
ghost use Rattle.writer.specs.Loading.{loops, any_loop};
ghost use Rattle.writer.specs.Push.{below, count_taken, cues_taken};
ghost use Rattle.writer_assign_cues.specs.Taking.{tallied, cue_point, point_bytes, filled_bytes, Taking};
ghost use Rattle.layout.specs.Refusals.{cue_limit};

use layout::fields::inside;
use layout::limits::{CUE_LIMIT, CUE_POINT_SIZE};
use layout_put::put_u32;
use layout_put_block::put_fillers;
use layout_sizes::align;
use writer::{Cue, CueKind};

// The cues of the table up to a place: where they end, how many of them are points and ranges, whether a Loop is among them.
#[derive(Clone, Copy)]
pub struct Taken {
    pub to: usize,
    pub points: usize,
    pub asked: bool,
}

fn loops(kind: CueKind) -> bool
    ensures { result ≡ loops kind }
{
    matches!(kind, CueKind::Loop)
}

// Where the cues from a place on that start below a limit end.
fn below(cues: [Cue; CUE_LIMIT], from: usize, count: usize, limit: u64) -> usize
    requires { (from ≤ count) × (count ≤ cue_limit) }
    ensures { (result ≡ from + below limit (slice from count cues)) × (from ≤ result) × (result ≤ count) }
{
    for k in from..count {
        if cues[k].start >= limit {
            return k;
        }
    }
    count
}

// How many of these cues are points and ranges.
fn points_in(cues: &[Cue]) -> usize
    ensures { result ≡ count_by (λ c. not (loops c.kind)) cues.now }
{
    cues.iter().filter(|c| !loops(c.kind)).count()
}

// Whether a Loop is among these cues.
fn has_loop(cues: &[Cue]) -> bool
    ensures { result ≡ list_any (λ c. loops c.kind) cues.now }
{
    cues.iter().any(|c| loops(c.kind))
}

fn tally(cues: [Cue; CUE_LIMIT], from: usize, to: usize) -> Taken
    requires { (from ≤ to) × (to ≤ cue_limit) }
    ensures { result ≡ tallied to (slice from to cues) }
{
    let part = &cues[from..to];
    let points = points_in(part);
    let asked = has_loop(part);
    Taken { to, points, asked }
}

// Of the cues of the table from a place on those that a block takes whose samples end before this one; the last takes all that remain.
fn take_within(cues: [Cue; CUE_LIMIT], from: usize, count: usize, end: u64, last: bool) -> Taken
    requires { (from ≤ count) × (count ≤ cue_limit) }
    ensures { result ≡ tallied (from + count_taken cues from count end last) (cues_taken cues from count end last) }
{
    if last {
        return tally(cues, from, count);
    }
    let to = below(cues, from, count, end);
    tally(cues, from, to)
}

// The same of any places: there are no cues beyond the table.
pub fn take(cues: [Cue; CUE_LIMIT], from: usize, count: usize, end: u64, last: bool) -> Taken
    ensures { result ≡ tallied (from + count_taken cues from count end last) (cues_taken cues from count end last) }
{
    let most = count.min(CUE_LIMIT);
    if from < most {
        return take_within(cues, from, most, end, last);
    }
    Taken {
        to: from,
        points: 0,
        asked: false,
    }
}

// Whether the table has a Loop.
pub fn any_loop(cues: [Cue; CUE_LIMIT], count: usize) -> bool
    ensures { result ≡ any_loop (slice 0 count cues) }
{
    let most = count.min(CUE_LIMIT);
    has_loop(&cues[..most])
}

// The distance from b to a, or 0.
fn distance(a: u64, b: u64) -> u64
    ensures { result ≡ a - b }
{
    if b <= a { a - b } else { 0 }
}

// A cue point; of its index and its id the low 32 bits.
fn put_point(buf: &mut [u8], at: usize, index: u64, id: u64)
    requires { at + cue_point_size ≤ length buf.old }
    ensures { buf.new ≡ put_at buf.old at (cue_bytes (cue_point index id)) }
{
    put_u32(buf, at, (index % 4294967296) as u32);
    put_u32(buf, at + 4, (id % 4294967296) as u32);
}

// The points and ranges of a part of the table, with ids from this one on.
fn put_points(
    buf: &mut [u8],
    at: usize,
    cues: [Cue; CUE_LIMIT],
    from: usize,
    to: usize,
    base: u64,
    id: u32,
)
    requires from_le_to { (from ≤ to) × (to ≤ cue_limit) }
    requires cues_in_bounds { at + length (point_bytes base id (slice from to cues)) ≤ length buf.old }
    ensures { buf.new ≡ put_at buf.old at (point_bytes base id (slice from to cues)) }
{
    let mut p = at;
    let mut n = id as u64;
    for k in from..to {
        let cue = cues[k];
        if loops(cue.kind) {
            continue;
        }
        put_point(buf, p, distance(cue.start, base), n);
        p += CUE_POINT_SIZE;
        n += 1;
    }
}

// The same with their filler: so many are points and ranges.
fn put_within(
    buf: &mut [u8],
    at: usize,
    cues: [Cue; CUE_LIMIT],
    from: usize,
    to: usize,
    base: u64,
    id: u32,
    points: usize,
)
    requires to_le_cue_limit { to ≤ cue_limit }
    requires taking { Taking cues from to points }
    requires points_in_bounds { at + padded_size (cue_point_size * points) ≤ length buf.old }
    ensures { buf.new ≡ put_at buf.old at (filled_bytes base id (slice from to cues)) }
{
    put_points(buf, at, cues, from, to, base, id);
    put_fillers(buf, at + CUE_POINT_SIZE * points, points);
}

// The cues that a block takes, up to this place, with their filler; where they do not fit wholly, nothing is changed.
pub fn put_taken(
    buf: &mut [u8],
    at: usize,
    cues: [Cue; CUE_LIMIT],
    from: usize,
    to: usize,
    base: u64,
    id: u32,
)
    ensures { buf.new ≡ put_at buf.old at (filled_bytes base id (slice from to cues)) }
{
    let most = to.min(CUE_LIMIT);
    if from < most {
        let taken = tally(cues, from, most);
        let size = align(CUE_POINT_SIZE * taken.points);
        if inside(buf.len(), at, size) {
            put_within(buf, at, cues, from, most, base, id, taken.points);
        }
    }
}
