// What a recorded call must answer, and the server's part after it: the writes that are handed out are carried out, and after each the slot is opened, up to
// finish's last write with 2 or 3, then as a stream.
#![tactic(auto)]

ghost use Rattle.std.specs.Prelude.{◌≡◌};
ghost use Rattle.reader.specs.OpeningAndReading.{opening};
ghost use Rattle.writer.specs.Calls.{reply_by};
ghost use Rattle.replay_server.specs.ServersPart.{is_due, applied, write_applied, header_applied, reply_applied};

use layout::fields::inside;
use layout::refusal::Refusal;
use layout_put::put_bytes;
use reader_open::open;
use replay_input::part;
use writer::{Place, Writes};

// Whether the slot opens; with 2 or 3 where it must not.
fn opens_as(s: &[u8], opens: bool) -> bool
    ensures { result ≡ is_due (opening s.now) opens }
{
    match open(s) {
        Ok(_) => opens,
        Err(refusal) => {
            !opens && matches!(refusal, Refusal::WrongMagic | Refusal::WrongChannelCount)
        }
    }
}

// The server carries a write out, of so many bytes from a place of the lent buffer on, and opens the slot.
#[tactic(auto, unfolding(crate::specs::ServersPart::write_applied))]
fn apply_write(
    slot: &mut [u8],
    n: usize,
    place: Place,
    lent: &[u8],
    from: usize,
    length: usize,
    opens: bool,
) -> bool
    ensures { applied result slot.new ≡ write_applied slot.old n place lent.now from length opens }
{
    if !inside(n, place.offset, place.length) {
        return false;
    }
    put_bytes(slot, place.offset, part(lent, from, length));
    opens_as(part(slot, 0, n), opens)
}

// Finish's three writes: their bytes lie in the lent buffer one after the other.
#[tactic(auto, unfolding(crate::specs::ServersPart::header_applied))]
fn apply_header(
    slot: &mut [u8],
    n: usize,
    start: Place,
    rest: Place,
    mark: Place,
    lent: &[u8],
) -> bool
    ensures { applied result slot.new ≡ header_applied slot.old n start rest mark lent.now }
{
    apply_write(slot, n, start, lent, 0, 15, false)
        && apply_write(slot, n, rest, lent, 15, 112, false)
        && apply_write(slot, n, mark, lent, 127, 1, true)
}

// Whether a call answered with this number, or with 0 if it was accepted, finish with this length too; the writes of an accepted call are carried out.
#[tactic(auto, unfolding(crate::specs::ServersPart::reply_applied))]
pub fn is_applied(
    slot: &mut [u8],
    n: usize,
    answer: Result<Writes, u32>,
    due: u32,
    length: usize,
    lent: &[u8],
) -> bool
    ensures value { result ≡ (reply_applied slot.old n (reply_by (λ n. n) answer) due length lent.now).good }
    ensures slot_after { slot.new ≡ (reply_applied slot.old n (reply_by (λ n. n) answer) due length lent.now).slot }
{
    match answer {
        Err(number) => number == due,
        Ok(Writes::None) => due == 0,
        Ok(Writes::One(place)) => {
            due == 0 && apply_write(slot, n, place, lent, 0, place.length, false)
        }
        Ok(Writes::Three(finished, start, rest, mark)) => {
            due == 0 && finished == length && apply_header(slot, n, start, rest, mark, lent)
        }
    }
}
