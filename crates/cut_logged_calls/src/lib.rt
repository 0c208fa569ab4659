// Loading calls whose writes are logged: each gets a lent buffer of zeros of its own.
#![tactic(auto)]

ghost use Rattle.std.specs.Prelude.{◌≡◌, replicate};
ghost use Rattle.writer.specs.Calls.{Good, begin_of, push_of, finish_of};
ghost use Rattle.writer_push.specs.PushArguments.{push_said};
ghost use Rattle.cut_write_log.specs.WriteLog.{empty_log, logging};
ghost use Rattle.cut_logged_calls.specs.LoggedCalls.{lent_of, log_after, made_by, made_says};
ghost use Rattle.layout.specs.Refusals.{key_limit};

use cut_write_log::{WriteLog, empty_log, log_reply};
use layout::limits::KEY_LIMIT;
use layout::refusal::Refusal;
use writer::{HpsWriter, Looping, Writes, begin};
use writer_finish::finish;
use writer_push::{PushArgs, push};

// The longest lent buffer: a block for a slot of 65,536 bytes gets 24 before it needs more.
pub const LENT: usize = KEY_LIMIT;

// What a call leaves: the record, its answer, and the writes with its own.
#[derive(Clone, Copy)]
pub struct Made {
    pub writer: HpsWriter,
    pub answer: Result<Writes, Refusal>,
    pub log: WriteLog,
}

fn zeros() -> [u8; LENT]
    ensures { result ≡ replicate key_limit 0 }
{
    [0; LENT]
}

fn begin_with(
    slot: usize,
    channels: usize,
    mode: Looping,
    lent: &mut [u8],
    logged: &mut [u8],
) -> Made
    ensures value { made_says result ≡ made_by (begin_of slot channels mode lent.old) (logging empty_log logged.old) }
    ensures logged_after { logged.new ≡ (log_after (begin_of slot channels mode lent.old) (logging empty_log logged.old)).bytes }
    ensures good { Good result.writer }
{
    let call = begin(slot, channels, mode, lent);
    let writer = call.writer;
    let answer = call.answer;
    let log = log_reply(empty_log(), answer, lent, logged);
    Made {
        writer,
        answer,
        log,
    }
}

// Begin, with a lent buffer of so many bytes, 65,536 at most.
pub fn begin_logged(
    slot: usize,
    channels: usize,
    mode: Looping,
    room: usize,
    logged: &mut [u8],
) -> Made
    ensures value { made_says result ≡ made_by (begin_of slot channels mode (lent_of room)) (logging empty_log logged.old) }
    ensures logged_after { logged.new ≡ (log_after (begin_of slot channels mode (lent_of room)) (logging empty_log logged.old)).bytes }
    ensures good { Good result.writer }
{
    let mut lent = zeros();
    let n = room.min(LENT);
    begin_with(slot, channels, mode, &mut lent[..n], logged)
}

fn push_with(w: HpsWriter, p: PushArgs<'_>, lent: &mut [u8], j: WriteLog, logged: &mut [u8]) -> Made
    requires { Good w }
    ensures value { made_says result
        ≡ made_by (push_of w (push_said p.entry) lent.old) (logging j logged.old) }
    ensures logged_after { logged.new
        ≡ (log_after (push_of w (push_said p.entry) lent.old) (logging j logged.old)).bytes }
    ensures good { Good result.writer }
{
    let call = push(w, p, lent);
    let writer = call.writer;
    let answer = call.answer;
    let log = log_reply(j, answer, lent, logged);
    Made {
        writer,
        answer,
        log,
    }
}

// Push, with a lent buffer of so many bytes, 65,536 at most.
pub fn push_logged(
    w: HpsWriter,
    p: PushArgs<'_>,
    room: usize,
    j: WriteLog,
    logged: &mut [u8],
) -> Made
    requires { Good w }
    ensures value { made_says result
        ≡ made_by (push_of w (push_said p.entry) (lent_of room)) (logging j logged.old) }
    ensures logged_after { logged.new
        ≡ (log_after (push_of w (push_said p.entry) (lent_of room)) (logging j logged.old)).bytes }
    ensures good { Good result.writer }
{
    let mut lent = zeros();
    let n = room.min(LENT);
    push_with(w, p, &mut lent[..n], j, logged)
}

fn finish_with(w: HpsWriter, lent: &mut [u8], j: WriteLog, logged: &mut [u8]) -> Made
    requires { Good w }
    ensures value { made_says result ≡ made_by (finish_of w lent.old) (logging j logged.old) }
    ensures logged_after { logged.new ≡ (log_after (finish_of w lent.old) (logging j logged.old)).bytes }
    ensures good { Good result.writer }
{
    let call = finish(w, lent);
    let writer = call.writer;
    let answer = call.answer;
    let log = log_reply(j, answer, lent, logged);
    Made {
        writer,
        answer,
        log,
    }
}

// Finish, with a lent buffer of so many bytes, 65,536 at most.
pub fn finish_logged(w: HpsWriter, room: usize, j: WriteLog, logged: &mut [u8]) -> Made
    requires { Good w }
    ensures value { made_says result ≡ made_by (finish_of w (lent_of room)) (logging j logged.old) }
    ensures logged_after { logged.new ≡ (log_after (finish_of w (lent_of room)) (logging j logged.old)).bytes }
    ensures good { Good result.writer }
{
    let mut lent = zeros();
    let n = room.min(LENT);
    finish_with(w, &mut lent[..n], j, logged)
}
