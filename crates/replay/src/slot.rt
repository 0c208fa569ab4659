// A slot's listing, which makes every cue call, and its block reads and addresses remaining, held to recorded answers.
ghost use Rattle.std.specs.Prelude.{◌<◌, ◌≡◌, length};
ghost use Rattle.reader.specs.OpeningAndReading.{Readable, block_read};
ghost use Rattle.reader_block.specs.BlockAnswers.{block_answer};
ghost use Rattle.reader_channel.specs.ChannelReading.{position_after};
ghost use Rattle.layout.specs.Answers.{says};
ghost use Rattle.layout.specs.Refusals.{block_limit};

use crate::answers::{END, is_value};
use crate::records::Records;
use host_io::large_buffer;
use key_listing::listing::fill;
use key_listing::start::start_listing;
use layout::refusal::Refusal;
use layout::{Channel, DspFormat, FrameContext};
use layout_number_or_zero::{half, long, signed, word};
use layout_put::put_bytes;
use layout_read::channels::read_coefficients;
use reader::{HpsReader, no_reader};
use reader_block::{Block, BlockCall, block_data};
use reader_channel::{read_at, read_next};
use reader_open::open;
use reader_remaining::data_remaining;
use replay_input::{part, size};

// A listing has fewer than 5,000,000 bytes, and each turn compares 65,000 or the rest.
const TURNS: usize = 100;

// One byte more than is listed.
const LONGEST: usize = 65537;

// Two channels of 512 blocks, each with its end and a position beyond, and a third channel.
const QUESTIONS: usize = 1030;

const CHANNEL: usize = 60;

const ANSWER: usize = 76;

fn is_listing(s: &[u8], want: &[u8]) -> bool {
    let start = start_listing(s);
    let r = start.reader;
    let mut stage = start.stage;
    let mut out = large_buffer();
    let mut rest = want;
    for _ in 0..TURNS {
        let filled = fill(s, r, stage, &mut out);
        let n = filled.length;
        if n == 0 {
            return rest.is_empty();
        }
        let Some(after) = rest.strip_prefix(&out[..n]) else {
            return false;
        };
        rest = after;
        stage = filled.stage;
    }
    false
}

fn is_format(format: DspFormat, n: u32) -> bool {
    n == u32::from(u16::from(format))
}

pub(crate) fn is_context(context: FrameContext, want: &[u8], at: usize) -> bool
    requires { at < block_limit }
{
    (context.predictor_and_scale == half(want, at))
        & (context.last == signed(want, at + 2))
        & (context.oldest == signed(want, at + 4))
}

// 40 bytes: coefficients, gain and context.
fn is_info(
    coefficients: [i16; 16],
    gain: u16,
    context: FrameContext,
    want: &[u8],
    at: usize,
) -> bool
    requires { at < 400 }
{
    (read_coefficients(want, at) == Ok(coefficients))
        & (gain == half(want, at + 32))
        & is_context(context, want, at + 34)
}

// 0 looping, 4 format, 8, 12 and 16 the loop, end and current address, 20 the rest.
fn is_channel(c: Channel, want: &[u8]) -> bool {
    if want.len() != CHANNEL {
        return false;
    }
    let format = c.format;
    let coefficients = c.coefficients;
    let context = c.context;
    (c.looping == (word(want, 0) == 1))
        & is_format(format, word(want, 4))
        & (c.loop_address == word(want, 8))
        & (c.end_address == word(want, 12))
        & (c.current_address == word(want, 16))
        & is_info(coefficients, c.gain, context, want, 20)
}

// What is recorded where no block is given.
fn no_block() -> Block {
    Block {
        rate: 0,
        format: DspFormat::Adpcm,
        coefficients: [0; 16],
        gain: 0,
        length: 0,
        context: FrameContext {
            predictor_and_scale: 0,
            last: 0,
            oldest: 0,
        },
        start: 0,
        end: 0,
    }
}

// An answer's number, and its block.
fn recorded(answer: Result<Option<Block>, Refusal>) -> (u32, Block) {
    match answer {
        Ok(Some(block)) => (0, block),
        Ok(None) => (END, no_block()),
        Err(refusal) => (u32::from(refusal), no_block()),
    }
}

// 12 the number, 16 by how much the position moved on, 20 rate, 24 format, 28 length, 36 the rest.
fn is_block(call: BlockCall, position: usize, want: &[u8]) -> bool
    requires { position < 4294967296 }
{
    let (number, block) = recorded(call.answer);
    let coefficients = block.coefficients;
    (number == word(want, 12))
        & (call.position == position + size(want, 16))
        & (block.rate == word(want, 20))
        & is_format(block.format, word(want, 24))
        & (block.length == long(want, 28))
        & is_info(coefficients, block.gain, block.context, want, 36)
}

// The block at a position as a channel reader gives it: one that has moved on from the block before, where there is one, else one that is made there.
fn reader_answer(s: &[u8], r: HpsReader, channel: usize, position: usize) -> BlockCall
    requires { Readable r }
    ensures answer { says result.answer ≡ block_answer (block_read s.now r channel position) }
    ensures position_after { result.position ≡ position_after s.now r channel position }
{
    if r.count <= channel {
        return read_at(s, r, channel, position);
    }
    if r.blocks < position {
        return read_at(s, r, channel, position);
    }
    if position == 0 {
        return read_at(s, r, channel, position);
    }
    read_next(s, r, channel, position - 1)
}

// The slot's record, of zeros where it does not open.
pub(crate) fn opened(s: &[u8]) -> HpsReader
    ensures { Readable result }
{
    match open(s) {
        Ok(r) => r,
        Err(_) => no_reader(),
    }
}

// The addresses remaining and the block read, with its data.
fn is_answer(
    s: &[u8],
    r: HpsReader,
    channel: usize,
    position: usize,
    want: &[u8],
    data: &[u8],
) -> bool
    requires { Readable r × (position < 4294967296) }
{
    if want.len() != ANSWER {
        return false;
    }
    let left = data_remaining(s, r, position);
    let call = reader_answer(s, r, channel, position);
    // 0 the number of the refusal, or 0; 4 the addresses.
    is_value(left, word(want, 0), long(want, 4))
        & is_block(call, position, want)
        & (block_data(s, r, channel, position) == data)
}

// Channel, position, the answer, how many bytes of data and the data, again and again: the number of the first that is another, from 3 on.
fn other_answer(s: &[u8], r: HpsReader, body: &[u8]) -> Option<usize>
    requires { Readable r }
{
    let mut answers = Records::<84, 1>(body);
    for turn in 0..QUESTIONS {
        let answer = answers.next()?;
        let head = answer.head;
        let want = part(head, 8, ANSWER);
        let good = match answer.body {
            None => false,
            Some(data) => is_answer(s, r, size(head, 0), size(head, 4), want, data),
        };
        if !good {
            return Some(3 + turn);
        }
    }
    Some(3 + QUESTIONS)
}

// The two channels of an opening, and what is read of it. Nothing is recorded of a refused one.
fn other_read(s: &[u8], body: &[u8]) -> Option<usize> {
    if body.is_empty() {
        return None;
    }
    let r = opened(s);
    let channels = r.channels;
    let good = is_channel(channels[0], part(body, 0, CHANNEL))
        & is_channel(channels[1], part(body, CHANNEL, CHANNEL));
    if good {
        return other_answer(s, r, body.get(2 * CHANNEL..).unwrap_or(&[]));
    }
    Some(2)
}

pub(crate) fn whole_slot() -> [u8; LONGEST]
    ensures { 65537 ≡ length result }
{
    [0; LONGEST]
}

// 0 the slot's length, 4 how many bytes of it are here, the others being 0, 8 these bytes; then the length of its listing and the listing; then what is read.
// Gives 1 if the listing is another, 2 if a channel is, and from 3 on the number of the first answer that is.
pub(crate) fn slot_case(body: &[u8]) -> Option<usize> {
    let mut whole = whole_slot();
    let n = size(body, 4);
    put_bytes(&mut whole, 0, part(body, 8, n));
    let slot = part(&whole, 0, size(body, 0));
    let m = size(body, 8 + n);
    if !is_listing(slot, part(body, 12 + n, m)) {
        return Some(1);
    }
    other_read(slot, body.get(12 + n + m..).unwrap_or(&[]))
}
