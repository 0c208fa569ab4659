// The routes to a pool in which A holds a frames and B holds b.
use crate::plain::{FRAMES, Holders, count, other, serves};
use crate::trial::{Trial, start, with_give, with_take};
use frame_pool::DecoderId;

fn held(trial: Trial, who: DecoderId) -> usize {
    count(&trial.holders, Some(who))
}

// Whether the trial came to (a, b), every take served.
pub(crate) fn reached(trial: Trial, a: usize, b: usize) -> bool {
    trial.served && held(trial, DecoderId::A) == a && held(trial, DecoderId::B) == b
}

fn take_times(before: Trial, who: DecoderId, times: usize) -> Trial {
    let mut trial = before;
    for _ in 0..times {
        trial = with_take(trial, who);
    }
    trial
}

pub(crate) fn b_first(a: usize, b: usize) -> Trial {
    take_times(take_times(start(), DecoderId::B, b), DecoderId::A, a)
}

pub(crate) fn a_first(a: usize, b: usize) -> Trial {
    take_times(take_times(start(), DecoderId::A, a), DecoderId::B, b)
}

fn take_where(trial: Trial, who: DecoderId, due: bool) -> Trial {
    if due { with_take(trial, who) } else { trial }
}

pub(crate) fn in_turns(a: usize, b: usize) -> Trial {
    let mut trial = start();
    for turn in 0..16 {
        trial = take_where(trial, DecoderId::A, turn < a);
        trial = take_where(trial, DecoderId::B, turn < b);
    }
    trial
}

// A take where the rule serves it.
fn take_served(trial: Trial, who: DecoderId) -> Trial {
    take_where(trial, who, serves(&trial.holders, who))
}

// The same where the decoder holds fewer than n.
fn take_under(trial: Trial, who: DecoderId, n: usize) -> Trial {
    if held(trial, who) < n {
        take_served(trial, who)
    } else {
        trial
    }
}

// A decoder's first frame from a number on, after 15 from 0 on.
fn first_held(holders: &Holders, who: DecoderId, from: usize) -> Option<usize> {
    // By number: the search goes on from 15 to 0.
    for i in 0..FRAMES {
        let at = (from % FRAMES + i) % FRAMES;
        if holders[at] == Some(who) {
            return Some(at);
        }
    }
    None
}

// A give of the decoder's first frame from a number on; where it holds none, of 16, which is refused.
fn give_from(trial: Trial, who: DecoderId, from: usize) -> Trial {
    let frame = first_held(&trial.holders, who, from).unwrap_or(FRAMES);
    with_give(trial, who, frame)
}

// The same where the decoder holds more than n.
fn give_over(trial: Trial, who: DecoderId, n: usize, from: usize) -> Trial {
    if held(trial, who) > n {
        give_from(trial, who, from)
    } else {
        trial
    }
}

// A decoder that holds n gives a frame back and takes again. In between the other, which holds m, has one more where it is served:
// else the frame just given, which may be the highest free one, would only come back.
fn exchange(trial: Trial, who: DecoderId, n: usize, m: usize, from: usize) -> Trial {
    let given = give_from(trial, who, from);
    let lent = take_served(given, other(who));
    let again = take_under(lent, who, n);
    let back = give_over(again, other(who), m, from);
    take_under(back, who, n)
}

// The same of each decoder, so that the held frames do not lie together.
pub(crate) fn exchanged(trial: Trial, a: usize, b: usize, from: usize) -> Trial {
    let one = exchange(trial, DecoderId::A, a, b, from);
    exchange(one, DecoderId::B, b, a, from)
}
