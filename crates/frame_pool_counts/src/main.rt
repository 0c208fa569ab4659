// Every pool that calls can reach, by how many frames each decoder holds, against the rule computed plainly.
// A line for each pair: HELD, what A and B hold, and 1 or 0 for whether a take of A and of B is served there.
// The word is DIFF where a reply is not the rule's, on the way or there.
#![tactic(auto)]

use crate::routes::{a_first, b_first, exchanged, in_turns, reached};
use crate::trial::{Trial, agrees, serves_take};
use frame_pool::DecoderId;
use host_io::write_all;
use key_lines::Column;
use key_lines::line::put_line;
use std::io::Write;

mod plain; // plain.rt: the rule, over who holds each frame
mod routes; // routes.rt: the calls that lead to a pair
mod trial; // trial.rt: a pool and the rule, side by side

// What the routes to a pair found: whether every reply was the rule's, and where one came there, whether a take of A and of B is served there.
#[derive(Clone, Copy)]
struct Found {
    same: bool,
    served: Option<(bool, bool)>,
}

// A trial that did not come to the pair is compared by its replies alone.
fn with_trial(found: Found, trial: Trial, a: usize, b: usize) -> Found {
    if !reached(trial, a, b) {
        return Found {
            same: found.same && trial.same,
            ..found
        };
    }
    let a_served = serves_take(trial, DecoderId::A);
    let b_served = serves_take(trial, DecoderId::B);
    Found {
        same: found.same && agrees(trial),
        served: Some((a_served, b_served)),
    }
}

// The routes of takes alone.
fn by_takes(a: usize, b: usize) -> Found {
    let none = Found {
        same: true,
        served: None,
    };
    let one = with_trial(none, b_first(a, b), a, b);
    let two = with_trial(one, a_first(a, b), a, b);
    with_trial(two, in_turns(a, b), a, b)
}

// How many times over frames are exchanged.
const TIMES: usize = 8;

// Each time from a number on that is so much higher.
const STEP: usize = 5;

// The route of takes and gives. Every pool on it holds the pair again, and is looked at.
fn with_exchanges(before: Found, a: usize, b: usize) -> Found {
    let mut found = before;
    let mut trial = b_first(a, b);
    for i in 0..TIMES {
        trial = exchanged(trial, a, b, i * STEP);
        found = with_trial(found, trial, a, b);
    }
    found
}

// A line's size: its word, four columns, the newline.
const LINE_SIZE: usize = 4 + 4 * 11 + 1;

fn print_line<W: Write>(to: &mut W, word: &[u8; 4], a: usize, b: usize, found: Found) {
    let (a_served, b_served) = found.served.unwrap_or((false, false));
    let columns = [
        Column::Number(a as u64),
        Column::Number(b as u64),
        Column::Number(u64::from(a_served)),
        Column::Number(u64::from(b_served)),
    ];
    let mut line = [0u8; LINE_SIZE];
    put_line(&mut line, 0, word, &columns);
    write_all(to, &line);
}

fn print_pair<W: Write>(to: &mut W, a: usize, b: usize) {
    let found = with_exchanges(by_takes(a, b), a, b);
    if !found.same {
        print_line(to, b"DIFF", a, b, found);
    } else if found.served.is_some() {
        print_line(to, b"HELD", a, b, found);
    }
}

fn print_row<W: Write>(to: &mut W, a: usize) {
    for b in 0..=16 {
        print_pair(to, a, b);
    }
}

fn main(rt: HostRuntime) {
    let mut to = rt.stdout();
    for a in 0..=16 {
        print_row(&mut to, a);
    }
}
