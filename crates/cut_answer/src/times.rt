// The runs of moments with the same listing.
ghost use Rattle.std.specs.Prelude.{◌≡◌, List, ℕ, ◌≤◌, length};
ghost use Rattle.layout.specs.Refusals.{key_limit};
ghost use Rattle.power_cut_moments.specs.Moments.{slot_at};
ghost use Rattle.key_listing.specs.MarkingKey.{listing};
ghost use Rattle.cut_write_log.specs.WriteLog.{logged_writes, Listed};
ghost use Rattle.script_run.specs.Script.{script_writes};
ghost use Rattle.cut_answer.specs.Moments.{MomentRun, RunEnds};

use cut_report::{print_line, time_line};
use cut_write_log::WriteLog;
use key_print::{print_listing, same_listing, slot_room};
use layout_put::put_bytes;
use power_cut_moments::next_moment;
use std::io::Write;

// TIME with a run's first and last moment, and the listing.
fn print_run<W: Write>(
    to: &mut W,
    earlier: &[u8],
    text: &[u8],
    from: usize,
    last: usize,
    slot: &[u8],
)
    requires { MomentRun earlier.now text.now from last (listing slot.now) }
{
    print_line(to, time_line(from, last));
    let _ = print_listing(to, slot);
}

// Where a run ends that starts at a moment; the other buffer has the slot at its start. The slot goes on to the moment after it.
fn run_end(slot: &mut [u8], first: &[u8], j: WriteLog, logged: &[u8], from: usize) -> usize
    requires { Listed j logged.now × (from ≤ j.total) }
    ensures { (s : List ℕ) → slot.old ≡ slot_at s (logged_writes j logged.now) from → first.now ≡ slot.old
        → RunEnds s (logged_writes j logged.now) from j.total (listing first.now) result slot.new }
{
    let places = j.places;
    let count = j.count;
    let total = j.total;
    for m in from..total {
        next_moment(slot, places, count, logged, m);
        if !same_listing(first, slot) {
            return m + 1;
        }
    }
    total + 1
}

// Prints the runs; both buffers are copies of the earlier slot.
fn show_runs<W: Write>(
    to: &mut W,
    earlier: &[u8],
    text: &[u8],
    slot: &mut [u8],
    first: &mut [u8],
    j: WriteLog,
    logged: &[u8],
)
    requires listed { Listed j logged.now × (logged_writes j logged.now ≡ script_writes (length earlier.now) text.now) }
    requires slot_value { (slot.old ≡ earlier.now) × (first.old ≡ earlier.now) }
{
    let total = j.total;
    let mut from: usize = 0;
    // A while: a run ends where the listing changes.
    while from <= total {
        let next = run_end(slot, first, j, logged, from);
        print_run(to, earlier, text, from, next - 1, first);
        put_bytes(first, 0, slot);
        from = next;
    }
}

// The listings of every moment; the slot is a copy of the earlier one.
pub(crate) fn show_times<W: Write>(
    to: &mut W,
    earlier: &[u8],
    text: &[u8],
    slot: &mut [u8],
    j: WriteLog,
    logged: &[u8],
)
    requires listed { Listed j logged.now × (logged_writes j logged.now ≡ script_writes (length earlier.now) text.now) }
    requires slot_value { (slot.old ≡ earlier.now) × (length earlier.now ≤ key_limit) }
{
    let n = earlier.len();
    let mut first = slot_room();
    put_bytes(&mut first, 0, earlier);
    show_runs(to, earlier, text, slot, &mut first[..n], j, logged);
}
