// Two decoders on one frame pool (document 02, Card 4): a take, a give, and what holds after every list of them.
#![tactic(auto)]

ghost use Rattle.std.specs.Prelude.{◌≡◌, ◌-◌, ltb};
ghost use Rattle.frame_pool.specs.FramePool.{share, other_decoder, new_pool, take_of, take_says, give_of, give_says};
ghost use Rattle.frame_pool.specs.HighestFree.{HighestFree};
ghost use Rattle.frame_pool.specs.FrameLists.{SixteenFrames, AlwaysServed, AtMostTen, ServedAlike, PremisesNeeded};

use crate::marks::{count, highest_free, holds};
use layout::refusal::Refusal;

mod marks; // marks.rt: the frames' marks, counted and looked for

pub const FRAMES: usize = 16;

// How many frames each decoder can count on.
const SHARE: usize = 6;

#[derive(Clone, Copy, Debug, PartialEq, Eq)]
pub enum DecoderId {
    A,
    B,
}

impl DecoderId {
    fn other(self) -> DecoderId
        ensures { result ≡ other_decoder self }
    {
        match self {
            DecoderId::A => DecoderId::B,
            DecoderId::B => DecoderId::A,
        }
    }
}

// Who holds a frame; of a free one nobody.
type Mark = Option<DecoderId>;

// A mark for each frame. A pool comes from new_pool, take and give alone.
#[derive(Clone, Copy)]
pub struct Pool {
    marks: [Mark; FRAMES],
}

// A reply, and the pool after it.
#[derive(Clone, Copy)]
pub struct Call<T> {
    pub reply: Result<T, Refusal>,
    pub pool: Pool,
}

// What a decoder that holds so many still lacks to its share: nothing where it holds more.
fn lack(held: usize) -> usize
    ensures { result ≡ share - held }
{
    SHARE.saturating_sub(held)
}

// Whether so many free frames outnumber what the other decoder, which holds so many, still lacks.
fn outnumber(free: usize, held: usize) -> bool
    ensures { result ≡ ltb (share - held) free }
{
    lack(held) < free
}

// A pool with all frames free.
pub fn new_pool() -> Pool
    ensures { result ≡ new_pool }
{
    Pool {
        marks: [None; FRAMES],
    }
}

// The highest-numbered free frame for a decoder; refused, the pool is left.
pub fn take(pool: Pool, who: DecoderId) -> Call<usize>
    ensures { take_says result ≡ take_of pool who }
{
    let mut marks = pool.marks;
    let free = count(&marks, None);
    let held = count(&marks, Some(who.other()));
    if !outnumber(free, held) {
        return Call {
            reply: Err(Refusal::NotServed),
            pool,
        };
    }
    let frame = highest_free(&marks);
    marks[frame] = Some(who);
    Call {
        reply: Ok(frame),
        pool: Pool { marks },
    }
}

// A frame given back by the decoder that holds it; refused, the pool is left.
pub fn give(pool: Pool, who: DecoderId, frame: usize) -> Call<()>
    ensures { give_says result ≡ give_of pool who frame }
{
    let mut marks = pool.marks;
    if !holds(&marks, Some(who), frame) {
        return Call {
            reply: Err(Refusal::NotHeld),
            pool,
        };
    }
    marks[frame] = None;
    Call {
        reply: Ok(()),
        pool: Pool { marks },
    }
}

// A served take's frame was free, and every one with a higher number is held.
pub fn highest_numbered()
    ensures { HighestFree }
{}

// After every list of calls each frame is free or has one holder, and free and held frames come to sixteen.
pub fn sixteen_frames()
    ensures { SixteenFrames }
{}

// After every list of calls a decoder that holds fewer than six is served.
pub fn always_served()
    ensures { AlwaysServed }
{}

// After every list of calls none holds over ten.
pub fn at_most_ten()
    ensures { AtMostTen }
{}

// A decoder's takes are served or refused alike, whatever the other does that keeps to its share.
pub fn served_alike()
    ensures { ServedAlike }
{}

// Not so where the other holds seven, or where a give is refused: two inputs, computed.
pub fn premises_needed()
    ensures { PremisesNeeded }
{}
