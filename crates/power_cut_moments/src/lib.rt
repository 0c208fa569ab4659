// What a power cut leaves of the writes, moment by moment.
#![tactic(auto)]

ghost use Rattle.std.specs.Prelude.{◌≡◌, take, drop};
ghost use Rattle.writer.specs.WritesAndCuttingRule.{write, writes_in};
ghost use Rattle.power_cut_moments.specs.Moments.{reached, slot_at, reached_next, next_byte, EveryMoment, PowerCutAtMoments};

use layout::fields::inside;
use layout_put::put_bytes;
use writer::{MOST_WRITES, Place};

// Every moment is one of the cuts that the theorems speak of.
pub fn every_moment()
    ensures { EveryMoment }
{}

// So the power cut says what opens at every moment of a loading.
pub fn power_cut_at_moments()
    ensures { PowerCutAtMoments }
{}

// The first n bytes of a write reach the slot.
pub fn reach(slot: &mut [u8], at: usize, bytes: &[u8], n: usize)
    ensures { slot.new ≡ reached slot.old (write at bytes.now) n }
{
    if inside(slot.len(), at, bytes.len()) {
        let m = n.min(bytes.len());
        put_bytes(slot, at, &bytes[..m]);
    }
}

// One byte more of a write, where the first k have reached the slot.
fn reach_next(slot: &mut [u8], at: usize, bytes: &[u8], k: usize)
    ensures { slot.new ≡ reached_next slot.old (write at bytes.now) k }
{
    if inside(slot.len(), at, bytes.len()) && k < bytes.len() {
        slot[at + k] = bytes[k];
    }
}

// So many of the bytes, or as many as there are, and the rest.
fn parted(bytes: &[u8], length: usize) -> (&[u8], &[u8])
    ensures part { result.0.now ≡ take length bytes.now }
    ensures rest { result.1.now ≡ drop length bytes.now }
{
    bytes.split_at_checked(length).unwrap_or((bytes, &[]))
}

// The slot at a moment of writes whose bytes lie one after the other.
fn carry_first(slot: &mut [u8], places: &[Place], bytes: &[u8], moment: usize)
    ensures { slot.new ≡ slot_at slot.old (writes_in places.now bytes.now) moment }
{
    let mut rest = bytes;
    let mut left = moment;
    for place in places {
        let (part, after) = parted(rest, place.length);
        if left < part.len() {
            reach(slot, place.offset, part, left);
            return;
        }
        reach(slot, place.offset, part, part.len());
        left -= part.len();
        rest = after;
    }
}

// The same of the first writes of a list.
pub fn slot_at(
    slot: &mut [u8],
    places: [Place; MOST_WRITES],
    count: usize,
    bytes: &[u8],
    moment: usize,
)
    ensures { slot.new ≡ slot_at slot.old (writes_in (take count places) bytes.now) moment }
{
    let most = count.min(MOST_WRITES);
    carry_first(slot, &places[..most], bytes, moment);
}

// One byte more of writes.
fn next_first(slot: &mut [u8], places: &[Place], bytes: &[u8], moment: usize)
    ensures { slot.new ≡ next_byte slot.old (writes_in places.now bytes.now) moment }
{
    let mut rest = bytes;
    let mut left = moment;
    for place in places {
        let (part, after) = parted(rest, place.length);
        if left < part.len() {
            reach_next(slot, place.offset, part, left);
            return;
        }
        left -= part.len();
        rest = after;
    }
}

// The same of the first writes of a list: a slot at this moment goes on to the next.
pub fn next_moment(
    slot: &mut [u8],
    places: [Place; MOST_WRITES],
    count: usize,
    bytes: &[u8],
    moment: usize,
)
    ensures { slot.new ≡ next_byte slot.old (writes_in (take count places) bytes.now) moment }
{
    let most = count.min(MOST_WRITES);
    next_first(slot, &places[..most], bytes, moment);
}
