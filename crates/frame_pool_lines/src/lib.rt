// Takes and gives as lines of a text, and the lines of their answers (document 02, Card 4).
#![tactic(auto)]

ghost use Rattle.std.specs.Prelude.{◌≡◌, ◌+◌, length, None};
ghost use Rattle.layout.specs.Puts.{put_at};
ghost use Rattle.layout.specs.Sizes.{saturated};
ghost use Rattle.key_lines.specs.Lines.{LinePut};
ghost use Rattle.frame_pool_lines.specs.PoolLines.{reply_line, no_call_line, new_progress, next_progress, CallAnswered};
ghost use Rattle.frame_pool_lines.specs.PoolText.{answers_in, answered_in, PoolTextCases, LinesAreCalls, PortionsAnswered};

use crate::says::{SaidCall, said_by};
use frame_pool::{Pool, give, new_pool, take};
use key_lines::line::put_line;
use key_lines::{Column, put_stop};
use layout::refusal::Refusal;
use script_words::text::{next_line, whole_line_at};

pub mod says; // says.rt: what a line says

// The longest answer: a word, a column, the newline.
const ANSWER_SIZE: usize = 4 + 11 + 1;

// What the lines so far have left: the pool, the number of the next line, whether one of them said no call.
#[derive(Clone, Copy)]
pub struct Progress {
    pub pool: Pool,
    pub number: u64,
    pub ended: bool,
}

// Where the lines of a text have led, and how many bytes their answers have.
#[derive(Clone, Copy)]
pub struct LinesAnswered {
    pub progress: Progress,
    pub length: usize,
}

pub fn new_progress() -> Progress
    ensures { result ≡ new_progress }
{
    Progress {
        pool: new_pool(),
        number: 1,
        ended: false,
    }
}

// FRAM and the frame of a take, DONE of a give, or STOP and the number.
fn put_reply(out: &mut [u8], at: usize, reply: Result<Option<usize>, Refusal>) -> usize
    ensures { LinePut out.old at (reply_line reply) out.new result }
{
    match reply {
        Ok(Some(frame)) => put_line(out, at, b"FRAM", &[Column::Number(frame as u64)]),
        Ok(None) => put_line(out, at, b"DONE", &[]),
        Err(why) => put_stop(out, at, why.into()),
    }
}

fn put_no_call(out: &mut [u8], at: usize, number: u64) -> usize
    ensures { LinePut out.old at (no_call_line number) out.new result }
{
    put_line(out, at, b"LINE", &[Column::Number(number)])
}

// The number of the line after this one; there is none after the last number of 64 bits.
#[tactic(auto, unfolding(layout::specs::Sizes::saturated))]
fn next_number(n: u64) -> u64
    ensures { result ≡ saturated (n + 1) }
{
    n.saturating_add(1)
}

fn next_progress(pool: Pool, number: u64) -> Progress
    ensures { result ≡ next_progress pool number }
{
    Progress {
        pool,
        number: next_number(number),
        ended: false,
    }
}

// After a call that came to this pool.
fn answer_reply(
    number: u64,
    pool: Pool,
    reply: Result<Option<usize>, Refusal>,
    out: &mut [u8],
    at: usize,
) -> LinesAnswered
    ensures line { LinePut out.old at (reply_line reply) out.new result.length }
    ensures progress { result.progress ≡ next_progress pool number }
{
    let length = put_reply(out, at, reply);
    let progress = next_progress(pool, number);
    LinesAnswered { progress, length }
}

fn answer_neither(from: Progress, out: &mut [u8], at: usize) -> LinesAnswered
    ensures { CallAnswered from None out.old at out.new result }
{
    let length = put_no_call(out, at, from.number);
    LinesAnswered {
        progress: Progress {
            ended: true,
            ..from
        },
        length,
    }
}

fn answer_call(from: Progress, said: Option<SaidCall>, out: &mut [u8], at: usize) -> LinesAnswered
    ensures { CallAnswered from said out.old at out.new result }
{
    match said {
        Some(SaidCall::Take(who)) => {
            let call = take(from.pool, who);
            let reply = call.reply.map(|frame| Some(frame));
            answer_reply(from.number, call.pool, reply, out, at)
        }
        Some(SaidCall::Give(who, frame)) => {
            let call = give(from.pool, who, frame);
            let reply = call.reply.map(|()| None);
            answer_reply(from.number, call.pool, reply, out, at)
        }
        None => answer_neither(from, out, at),
    }
}

// The answers to the lines of a text, from the buffer's start; nothing where it has fewer than 16 bytes for each of the text.
pub fn answer_lines(from: Progress, text: &[u8], out: &mut [u8]) -> LinesAnswered
    ensures value { result ≡ answered_in (length out.old) from text.now }
    ensures out_after { out.new ≡ put_at out.old 0 (answers_in (length out.old) from text.now) }
{
    let mut progress = from;
    let mut length: usize = 0;
    if text.len() > out.len() / ANSWER_SIZE {
        return LinesAnswered { progress, length };
    }
    let mut at: usize = 0;
    // A while: the next line starts where next_line says, which the contract goes by.
    while at < text.len() {
        if progress.ended {
            return LinesAnswered { progress, length };
        }
        let said = said_by(whole_line_at(text, at));
        let done = answer_call(progress, said, out, length);
        progress = done.progress;
        length += done.length;
        at = next_line(text, at);
    }
    LinesAnswered { progress, length }
}

// Small cases, computed.
pub fn pool_text_cases()
    ensures { PoolTextCases }
{}

// The pool that a text's lines leave is that of the calls that they say.
pub fn lines_are_calls()
    ensures { LinesAreCalls }
{}

// The whole lines of each portion, answered one after the other, come to all of a text.
pub fn portions_answered()
    ensures { PortionsAnswered }
{}
