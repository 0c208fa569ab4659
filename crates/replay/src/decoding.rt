// The blocks of a slot decoded into lent places, held to recorded answers.
ghost use Rattle.std.specs.Prelude.{◌<◌, ◌≡◌, length};
ghost use Rattle.reader.specs.OpeningAndReading.{Readable};

use crate::answers::END;
use crate::records::Records;
use crate::slot::{is_context, opened, whole_slot};
use layout::FrameContext;
use layout::refusal::Refusal;
use layout_number_or_zero::{half, signed, word};
use layout_put::put_bytes;
use reader::HpsReader;
use reader_decode::{Decoder, decode};
use replay_input::{part, size};

// More calls than a case has.
const QUESTIONS: usize = 1030;

// As many places as are ever lent.
const PLACES: usize = 8192;

// What a lent place has before a call.
const UNTOUCHED: i16 = -21555;

const ANSWER: usize = 36;

fn lent_places() -> [i16; PLACES]
    ensures { 8192 ≡ length result }
{
    [UNTOUCHED; PLACES]
}

// 4 the position and 8 the context that go in.
fn decoder_in(want: &[u8]) -> Decoder {
    Decoder {
        position: size(want, 4),
        context: FrameContext {
            predictor_and_scale: half(want, 8),
            last: signed(want, 10),
            oldest: signed(want, 12),
        },
    }
}

// 18 the number; 32 how many samples.
fn is_reply(answer: Result<Option<usize>, Refusal>, want: &[u8]) -> bool {
    let number = word(want, 18);
    match answer {
        Ok(Some(n)) => number == 0 && n == size(want, 32),
        Ok(None) => number == END,
        Err(refusal) => number == u32::from(refusal),
    }
}

// 22 the position and 26 the context afterwards.
fn is_decoder(decoder: Decoder, want: &[u8]) -> bool {
    (decoder.position == size(want, 22)) & is_context(decoder.context, want, 26)
}

// What a lent place must have after a call: a sample, or beyond them what it had.
fn due_at(samples: &[u8], i: usize) -> i16 {
    if i < samples.len() / 2 {
        return signed(samples, 2 * i);
    }
    UNTOUCHED
}

fn are_places(lent: &[i16], samples: &[u8]) -> bool {
    lent.iter()
        .enumerate()
        .all(|(i, place)| *place == due_at(samples, i))
}

fn is_decoded(s: &[u8], r: HpsReader, want: &[u8], samples: &[u8], lent: &mut [i16]) -> bool
    requires { Readable r }
{
    let call = decode(s, r, size(want, 0), decoder_in(want), lent);
    is_reply(call.answer, want) & is_decoder(call.decoder, want) & are_places(lent, samples)
}

// 0 the channel, 14 how many places are lent.
fn is_answer(s: &[u8], r: HpsReader, want: &[u8], samples: &[u8]) -> bool
    requires { Readable r }
{
    let mut lent = lent_places();
    let most = size(want, 14).min(PLACES);
    is_decoded(s, r, want, samples, &mut lent[..most])
}

// What goes in and what comes out, and the samples, again and again: the number of the first that is another, from 1 on.
fn other_answer(s: &[u8], r: HpsReader, body: &[u8]) -> Option<usize>
    requires { Readable r }
{
    let mut answers = Records::<32, 2>(body);
    for turn in 0..QUESTIONS {
        let answer = answers.next()?;
        let want = part(answer.head, 0, ANSWER);
        let good = match answer.body {
            None => false,
            Some(samples) => is_answer(s, r, want, samples),
        };
        if !good {
            return Some(1 + turn);
        }
    }
    Some(1 + QUESTIONS)
}

// 0 the slot's length, 4 how many bytes of it are here, the others being 0, 8 these bytes; then the answers. Gives the number of the first that is another,
// from 1 on.
pub(crate) fn decoding_case(body: &[u8]) -> Option<usize> {
    let mut whole = whole_slot();
    let n = size(body, 4);
    put_bytes(&mut whole, 0, part(body, 8, n));
    let slot = part(&whole, 0, size(body, 0));
    other_answer(slot, opened(slot), body.get(8 + n..).unwrap_or(&[]))
}
