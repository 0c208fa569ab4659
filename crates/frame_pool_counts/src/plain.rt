// The rule (document 02, Card 4) computed plainly, over who holds each frame. It calls nothing of frame_pool.
ghost use Rattle.std.specs.Prelude.{◌<◌, ◌≤◌};

use frame_pool::DecoderId;
use layout::refusal::Refusal;

pub(crate) const FRAMES: usize = 16;

// Of a free frame nobody.
pub(crate) type Holders = [Option<DecoderId>; FRAMES];

// Not that of frame_pool, so that the rule is computed apart from it.
pub(crate) fn other(who: DecoderId) -> DecoderId {
    match who {
        DecoderId::A => DecoderId::B,
        DecoderId::B => DecoderId::A,
    }
}

// A holder in one byte: as it is, it takes two.
fn byte_of(holder: Option<DecoderId>) -> u8 {
    match holder {
        None => 0,
        Some(DecoderId::A) => 1,
        Some(DecoderId::B) => 2,
    }
}

// How many frames have this holder. Compared by their bytes, all sixteen are so at once; inlined, two counts take the bytes once.
#[inline(always)]
pub(crate) fn count(holders: &Holders, holder: Option<DecoderId>) -> usize
    ensures { result ≤ 16 }
{
    let byte = byte_of(holder);
    let mut n = 0;
    for i in 0..FRAMES {
        if byte_of(holders[i]) == byte {
            n += 1;
        }
    }
    n
}

// What a decoder that holds so many lacks to six: a signed number, cut at 0.
fn lack(held: usize) -> i64
    requires { held ≤ 16 }
{
    (6 - held as i64).max(0)
}

// Whether the free frames outnumber what the other decoder lacks.
pub(crate) fn serves(holders: &Holders, who: DecoderId) -> bool {
    let free = count(holders, None) as i64;
    free > lack(count(holders, Some(other(who))))
}

// The last free frame of a scan from 0 on; 0 where there is none.
fn highest_free(holders: &Holders) -> usize
    ensures { result < 16 }
{
    let mut last: usize = 0;
    for (i, holder) in holders.iter().enumerate() {
        if holder.is_none() {
            last = i;
        }
    }
    last
}

pub(crate) fn plain_take(holders: &mut Holders, who: DecoderId) -> Result<usize, Refusal> {
    if !serves(holders, who) {
        return Err(Refusal::NotServed);
    }
    let frame = highest_free(holders);
    holders[frame] = Some(who);
    Ok(frame)
}

pub(crate) fn plain_give(
    holders: &mut Holders,
    who: DecoderId,
    frame: usize,
) -> Result<(), Refusal> {
    if frame >= FRAMES || holders[frame] != Some(who) {
        return Err(Refusal::NotHeld);
    }
    holders[frame] = None;
    Ok(())
}
