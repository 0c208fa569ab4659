// A stream loaded through begin, cue, push and finish, with calls among them that are refused, held to recorded answers and bytes.
ghost use Rattle.std.specs.Prelude.{◌≡◌, length, MatchOption};
ghost use Rattle.writer.specs.Calls.{Good};

use crate::records::Records;
use layout::limits::{BLOCK_HEADER_SIZE, CUE_LIMIT, CUE_POINT_SIZE, MONO_LIMIT};
use layout_number_or_zero::word;
use layout_put::put_bytes;
use replay_calls::{Step, make};
use replay_input::{part, size};
use replay_server::is_applied;
use writer::{HpsWriter, Looping, begin};

const STEPS: usize = 3000;

const SLOT: usize = 262144;

// The longest block: header, cues, data.
const LENT: usize = BLOCK_HEADER_SIZE + CUE_POINT_SIZE * CUE_LIMIT + MONO_LIMIT;

// A step's call, and the writes that it hands out. The record afterwards, if all went as the step says.
fn run_call(step: &[u8], w: HpsWriter, slot: &mut [u8], lent: &mut [u8]) -> Option<HpsWriter>
    requires { Good w }
    ensures { MatchOption result Unit (λ left. Good left) }
{
    let call = make(step, w, lent);
    let good = is_applied(
        slot,
        size(step, 8),
        call.answer.map_err(|why| why.into()),
        word(step, 4),
        size(step, 12),
        lent,
    );
    if good { Some(call.writer) } else { None }
}

// A call that is lent so many bytes of this buffer.
fn lend(step: &[u8], w: HpsWriter, slot: &mut [u8], lent: &mut [u8]) -> Option<HpsWriter>
    requires { Good w }
    ensures { MatchOption result Unit (λ left. Good left) }
{
    let most = size(step, 28).min(lent.len());
    run_call(step, w, slot, &mut lent[..most])
}

// Whether these bytes lie in the slot.
fn has_bytes(slot: &[u8], at: usize, bytes: &[u8]) -> bool {
    part(slot, at, bytes.len()) == bytes
}

// 0 what is done, 4 the number of the refusal, or 0, 8 the slot's length, with bytes their place; then what the call is given.
fn run_step(step: &[u8], w: HpsWriter, slot: &mut [u8], lent: &mut [u8]) -> Option<HpsWriter>
    requires { Good w }
    ensures { MatchOption result Unit (λ left. Good left) }
{
    let n = size(step, 8);
    let bytes = part(step, 32, size(step, 12));
    match Step::try_from(word(step, 0)) {
        Ok(Step::Put) => {
            put_bytes(slot, n, bytes);
            Some(w)
        }
        Ok(Step::Begin | Step::Cue | Step::Push | Step::Finish) => lend(step, w, slot, lent),
        Ok(Step::Find) if has_bytes(slot, n, bytes) => Some(w),
        Ok(Step::Find) | Err(_) => None,
    }
}

// Steps one after the other: the number of the first that went another way, from 1 on; 1 where there is none.
fn other_step(body: &[u8], begun: HpsWriter, slot: &mut [u8], lent: &mut [u8]) -> Option<usize>
    requires { Good begun }
{
    let mut w = begun;
    let mut rest = Records::<0, 1>(body);
    for turn in 0..STEPS {
        let step = rest.next().and_then(|record| record.body).unwrap_or(&[]);
        let Some(left) = run_step(step, w, slot, lent) else {
            return Some(1 + turn);
        };
        if rest.0.is_empty() {
            return None;
        }
        w = left;
    }
    Some(1 + STEPS)
}

fn empty_slot() -> [u8; SLOT]
    ensures { 262144 ≡ length result }
{
    [0; SLOT]
}

fn lent_buffer() -> [u8; LENT]
    ensures { 66592 ≡ length result }
{
    [7; LENT]
}

// The steps over a slot of zeros, before any begin.
pub(crate) fn loading_case(body: &[u8]) -> Option<usize> {
    let mut slot = empty_slot();
    let mut lent = lent_buffer();
    let none = begin(0, 0, Looping::Auto, &mut lent);
    other_step(body, none.writer, &mut slot, &mut lent)
}
