// The call that a recorded step says, and the estimate that a recorded case asks for: numbers that are not there read as 0, so that any bytes say one.
#![tactic(auto)]

ghost use Rattle.std.specs.Prelude.{◌<◌, ◌≡◌};
ghost use Rattle.writer.specs.Loading.{mode_of};
ghost use Rattle.writer.specs.Calls.{Good, called, called_says, cue_of, push_of};
ghost use Rattle.writer.specs.Estimate.{estimate_of};
ghost use Rattle.writer_estimate.specs.EstimateAnswers.{estimate_says};
ghost use Rattle.replay_calls.specs.RecordedCalls.{step_of, kind_of, side_at, begun, cue_in, push_in, made_as, lengths_of, estimate_in};

use layout::FrameContext;
use layout::limits::BLOCK_LIMIT;
use layout::refusal::Refusal;
use layout_number_or_zero::{half, long, signed, word};
use layout_read::channels::read_coefficients;
use replay_input::{part, size};
use writer::{Called, ChannelBlock, Cue, CueKind, HpsWriter, Looping, begin};
use writer_cue::cue;
use writer_estimate::estimate;
use writer_finish::finish;
use writer_push::{PushArgs, push};

// What a recorded step does: it puts bytes into the slot, makes a call, or finds bytes in the slot.
#[derive(Clone, Copy, Debug, PartialEq, Eq)]
pub enum Step {
    Put,
    Begin,
    Cue,
    Push,
    Finish,
    Find,
}

// A number that says no step.
#[derive(Clone, Copy, Debug, PartialEq, Eq)]
pub struct UnknownStep(pub u32);

impl TryFrom<u32> for Step {
    type Error = UnknownStep;

    ghost try_from_gives = { λ number step. step ≡ step_of number };

    fn try_from(number: u32) -> Result<Step, UnknownStep> {
        match number {
            1 => Ok(Step::Put),
            2 => Ok(Step::Begin),
            3 => Ok(Step::Cue),
            4 => Ok(Step::Push),
            5 => Ok(Step::Finish),
            6 => Ok(Step::Find),
            _ => Err(UnknownStep(number)),
        }
    }
}

// The mode and the kind are the writer's types, for which no From can stand here.
fn mode(n: u32) -> Looping
    ensures { result ≡ mode_of n }
{
    match n {
        0 => Looping::Disabled,
        1 => Looping::Enabled,
        _ => Looping::Auto,
    }
}

#[tactic(auto, unfolding(crate::specs::RecordedCalls::kind_of))]
fn kind(n: u32, length: u64) -> CueKind
    ensures { result ≡ kind_of n length }
{
    match n {
        0 => CueKind::Point,
        1 => CueKind::Loop,
        _ => CueKind::Range(length),
    }
}

// What a push says of a channel.
#[tactic(auto, unfolding(crate::specs::RecordedCalls::side_at))]
fn side(s: &[u8], at: usize) -> ChannelBlock
    requires { at < 8589934592 }
    ensures { result ≡ side_at s.now at }
{
    ChannelBlock {
        rate: word(s, at),
        length: long(s, at + 4) as usize,
        coefficients: read_coefficients(s, at + 12).unwrap_or([0; 16]),
        gain: half(s, at + 44),
        context: FrameContext {
            predictor_and_scale: half(s, at + 46),
            last: signed(s, at + 48),
            oldest: signed(s, at + 50),
        },
    }
}

// Begin on the slot as it stands.
#[tactic(auto, unfolding(crate::specs::RecordedCalls::begun))]
fn make_begin(step: &[u8], lent: &mut [u8]) -> Called
    ensures value { called_says result ≡ called (begun step.now lent.old) }
    ensures lent_after { lent.new ≡ (begun step.now lent.old).lent }
    ensures good { Good result.writer }
{
    begin(size(step, 8), size(step, 12), mode(word(step, 16)), lent)
}

#[tactic(auto, unfolding(crate::specs::RecordedCalls::cue_in))]
fn make_cue(step: &[u8], w: HpsWriter) -> Called
    requires { Good w }
    ensures value { called_says result ≡ called (cue_of w (cue_in step.now)) }
    ensures good { Good result.writer }
{
    cue(
        w,
        Cue {
            start: long(step, 16),
            kind: kind(word(step, 12), long(step, 36)),
            name: word(step, 32),
        },
    )
}

#[tactic(auto, unfolding(crate::specs::RecordedCalls::push_in))]
fn make_push(step: &[u8], w: HpsWriter, lent: &mut [u8]) -> Called
    requires { Good w }
    ensures value { called_says result ≡ called (push_of w (push_in step.now) lent.old) }
    ensures lent_after { lent.new ≡ (push_of w (push_in step.now) lent.old).lent }
    ensures good { Good result.writer }
{
    let many = size(step, 20);
    let p = PushArgs {
        channels: size(step, 12),
        left: side(step, 32),
        right: side(step, 84 + many),
        left_data: part(step, 84, many),
        right_data: part(step, 136 + many, size(step, 24)),
        last: word(step, 16) == 1,
    };
    push(w, p, lent)
}

// A cue is lent nothing.
#[tactic(auto, unfolding(crate::specs::RecordedCalls::made_as))]
pub fn make(step: &[u8], w: HpsWriter, lent: &mut [u8]) -> Called
    requires { Good w }
    ensures value { called_says result ≡ called (made_as step.now w lent.old) }
    ensures lent_after { lent.new ≡ (made_as step.now w lent.old).lent }
    ensures good { Good result.writer }
{
    match Step::try_from(word(step, 0)) {
        Ok(Step::Begin) => make_begin(step, lent),
        Ok(Step::Cue) => make_cue(step, w),
        Ok(Step::Push) => make_push(step, w, lent),
        _ => finish(w, lent),
    }
}

// As many blocks as an estimate takes, and one more.
const MOST: u32 = BLOCK_LIMIT as u32;

const TOO_MANY: usize = BLOCK_LIMIT + 1;

#[tactic(auto, unfolding(crate::specs::RecordedCalls::lengths_of))]
fn estimate_of(
    blocks: u32,
    length: usize,
    other: usize,
    channels: usize,
    p: u32,
) -> Result<u64, Refusal>
    ensures { estimate_says result ≡ estimate_of channels (lengths_of blocks length other) p }
{
    match blocks {
        1 => estimate(&[length], channels, p),
        2 => estimate(&[length, other], channels, p),
        MOST => estimate(&[length; BLOCK_LIMIT], channels, p),
        _ => estimate(&[length; TOO_MANY], channels, p),
    }
}

#[tactic(auto, unfolding(crate::specs::RecordedCalls::estimate_in))]
pub fn estimate_at(body: &[u8]) -> Result<u64, Refusal>
    ensures { estimate_says result ≡ estimate_in body.now }
{
    estimate_of(
        word(body, 4),
        long(body, 8) as usize,
        long(body, 16) as usize,
        size(body, 24),
        word(body, 28),
    )
}
