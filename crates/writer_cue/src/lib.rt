// The cue call (document 01, "Loading"): the order of cues, the table that holds them in that order, and the call.
#![tactic(auto)]

ghost use Rattle.std.specs.Prelude.{◌≡◌, ◌∷◌, ◌++◌, ◌+◌, ◌-◌, ◌<◌, ◌≤◌, take, drop, ltb};
ghost use Rattle.std.specs.List.{position};
ghost use Rattle.writer.specs.Loading.{before, has, zero_range, cue_order};
ghost use Rattle.layout.specs.Answers.{due_number};
ghost use Rattle.layout.specs.Refusals.{cue_limit, start_limit};
ghost use Rattle.layout.specs.Lists.{first_index};
ghost use Rattle.layout.specs.Choice.{◌or◌};
ghost use Rattle.writer.specs.Calls.{Good, cue_of, called, called_says};

use layout::limits::{CUE_LIMIT, START_LIMIT};
use layout::refusal::Refusal;
use writer::{Called, Cue, CueKind, CueTable, HpsWriter, Writes};

// Cues are ordered by start, kind, range length, name: the order of their fields as they are declared.
#[tactic(auto, using(crate::proofs::CueTableLaws::is_before))]
fn comes_before(c: Cue, d: Cue) -> bool
    ensures { result ≡ before c d }
{
    c < d
}

// The first of the cues held that this one comes before.
fn next_after(held: &[Cue], c: Cue) -> Option<usize>
    ensures { result ≡ position (before c) held.now }
{
    held.iter().position(|d| comes_before(c, *d))
}

// Whether an equal cue is held.
fn holds(held: &[Cue], c: Cue) -> bool
    ensures { result ≡ has c held.now }
{
    held.contains(&c)
}

// The cue at i, and what stood from i to n one place later.
fn put_in(t: [Cue; CUE_LIMIT], n: usize, i: usize, c: Cue) -> [Cue; CUE_LIMIT]
    requires { (i ≤ n) × (n < cue_limit) }
    ensures { result ≡ take i t ++ (c ∷ (take (n - i) (drop i t) ++ drop (n + 1) t)) }
{
    let mut u = t;
    u.copy_within(i..n, i + 1);
    u[i] = c;
    u
}

// Refused with 8: the start is too late, or a range is empty.
fn is_bad(start: u64, kind: CueKind) -> bool
    ensures { result ≡ (ltb start_limit start or zero_range kind) }
{
    start > START_LIMIT || kind == CueKind::Range(0)
}

// Why the cue is refused, if it is.
#[tactic(auto, unfolding(layout::specs::Refusals::first_due))]
fn cue_due(blocks: usize, bad: bool, equal: bool, count: usize) -> Result<(), Refusal>
    ensures { due_number result ≡ cue_order blocks bad equal count }
{
    if blocks > 0 {
        return Err(Refusal::AlreadyPushed);
    }
    if bad {
        return Err(Refusal::BadCue);
    }
    if !equal && count >= CUE_LIMIT {
        return Err(Refusal::CueTableFull);
    }
    Ok(())
}

// Cue: it goes to its place in the table, unless an equal one is there.
pub fn cue(w: HpsWriter, c: Cue) -> Called
    requires { Good w }
    ensures value { called_says result ≡ called (cue_of w c) }
    ensures good { Good result.writer }
{
    let n = w.table.count;
    let held = &w.table.cues[..n];
    let bad = is_bad(c.start, c.kind);
    let equal = holds(held, c);
    if let Err(refusal) = cue_due(w.stream.blocks, bad, equal, n) {
        return Called {
            answer: Err(refusal),
            writer: w,
        };
    }
    if equal {
        return Called {
            answer: Ok(Writes::None),
            writer: w,
        };
    }
    let place = next_after(held, c).unwrap_or(n);
    let cues = put_in(w.table.cues, n, place, c);
    let table = CueTable { cues, count: n + 1 };
    Called {
        answer: Ok(Writes::None),
        writer: HpsWriter { table, ..w },
    }
}
