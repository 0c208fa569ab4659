// A pool and the plain rule side by side: each call is made on both, and its replies are compared.
use crate::plain::{FRAMES, Holders, plain_give, plain_take};
use frame_pool::{DecoderId, Pool, give, new_pool, take};

// The pool, who holds each frame by the rule, whether every reply was the rule's, and whether the rule served every take.
#[derive(Clone, Copy)]
pub(crate) struct Trial {
    pool: Pool,
    pub(crate) holders: Holders,
    pub(crate) same: bool,
    pub(crate) served: bool,
}

pub(crate) fn start() -> Trial {
    Trial {
        pool: new_pool(),
        holders: [None; FRAMES],
        same: true,
        served: true,
    }
}

// The trial with a take more.
pub(crate) fn with_take(trial: Trial, who: DecoderId) -> Trial {
    let call = take(trial.pool, who);
    let mut holders = trial.holders;
    let rule = plain_take(&mut holders, who);
    Trial {
        pool: call.pool,
        holders,
        same: trial.same && call.reply == rule,
        served: trial.served && rule.is_ok(),
    }
}

// The trial with a give more.
pub(crate) fn with_give(trial: Trial, who: DecoderId, frame: usize) -> Trial {
    let call = give(trial.pool, who, frame);
    let mut holders = trial.holders;
    let rule = plain_give(&mut holders, who, frame);
    Trial {
        pool: call.pool,
        holders,
        same: trial.same && call.reply == rule,
        served: trial.served,
    }
}

// Whether a take of each decoder, and every reply before it, is the rule's.
fn takes_agree(trial: Trial) -> bool {
    with_take(trial, DecoderId::A).same && with_take(trial, DecoderId::B).same
}

// The same after a take: it leaves the pool that the rule says.
fn take_agrees(trial: Trial, who: DecoderId) -> bool {
    takes_agree(with_take(trial, who))
}

fn give_agrees(trial: Trial, who: DecoderId, frame: usize) -> bool {
    takes_agree(with_give(trial, who, frame))
}

// The same after a give of each frame's number, and of three numbers that no frame has.
fn gives_agree(trial: Trial, who: DecoderId) -> bool {
    let numbers = (0..=17).all(|frame| give_agrees(trial, who, frame));
    numbers && give_agrees(trial, who, usize::MAX)
}

// Whether every reply on the way, and to every call in the pool that was reached, is the rule's.
pub(crate) fn agrees(trial: Trial) -> bool {
    let a = take_agrees(trial, DecoderId::A) && gives_agree(trial, DecoderId::A);
    let b = take_agrees(trial, DecoderId::B) && gives_agree(trial, DecoderId::B);
    a && b
}

// Whether the pool serves a take.
pub(crate) fn serves_take(trial: Trial, who: DecoderId) -> bool {
    take(trial.pool, who).reply.is_ok()
}
