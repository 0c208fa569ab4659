// A channel decoded and printed, block after block: 16 bits little-endian.
#![tactic(auto)]

ghost use Rattle.std.specs.Prelude.{◌≡◌, ◌≤◌, ◌<◌, ◌+◌, ◌*◌, length, take, drop, MatchResult};
ghost use Rattle.layout.specs.Refusals.{block_limit};
ghost use Rattle.pcm_bytes.specs.Pcm.{pcm_bytes};
ghost use Rattle.reader.specs.OpeningAndReading.{Readable};
ghost use Rattle.decode_print.specs.Hearing.{most_samples, pushed_samples, channel_samples, channel_end, RoomForEach, HeardOf, Before, HeardTo, ended_says, is_short};

use host_io::{large_buffer, write_all};
use layout::limits::{LENGTH_LIMIT, SLOT_LIMIT};
use layout::refusal::Refusal;
use pcm_bytes::put_pcm;
use reader::HpsReader;
use reader_decode::{Decoder, decode, new_decoder};
use reader_open::open;
use std::io::Write;

// How many samples a channel has, all of them handed to the system, and whether a refusal ended them.
#[derive(Clone, Copy)]
pub struct Heard {
    pub end: Result<(), Refusal>,
    pub length: usize,
}

// The system did not take all; how many were handed to it before.
#[derive(Clone, Copy, Debug, PartialEq, Eq)]
pub struct NotTaken {
    pub length: usize,
}

// Samples heard, and the decoder after them.
#[derive(Clone, Copy)]
struct Hearing {
    heard: Heard,
    decoder: Decoder,
}

// What is handed to the system are the bytes of n samples from `at` on: samples and place are there for the premise alone. Whether it took them.
fn write_pcm<W: Write>(to: &mut W, samples: &[i16], at: usize, n: usize, bytes: &[u8]) -> bool
    requires { bytes.now ≡ pcm_bytes (take n (drop at samples.now)) }
{
    write_all(to, bytes)
}

// Samples of a channel, from one of them on; how many.
fn print_samples<W: Write>(
    to: &mut W,
    s: &[u8],
    channel: usize,
    from: usize,
    samples: &[i16],
) -> Result<usize, NotTaken>
    requires those { samples.now ≡ take (length samples.now) (drop from (channel_samples s.now channel)) }
    requires fits { from + length samples.now ≤ block_limit * most_samples }
    ensures { MatchResult result (λ n. n ≡ length samples.now) (λ e. (from ≤ e.length) × (e.length < from + length samples.now)) }
{
    let mut out = large_buffer();
    let mut at: usize = 0;
    // The place goes on by what was put, and the premise of the write speaks of it: a `for` over chunks would be no plainer.
    while at < samples.len() {
        let n = put_pcm(&samples[at..], &mut out);
        if !write_pcm(to, samples, at, n, &out[..2 * n]) {
            return Err(NotTaken { length: from + at });
        }
        at += n;
    }
    Ok(at)
}

fn ended(end: Result<(), Refusal>, length: usize, decoder: Decoder) -> Hearing
    ensures { result ≡ record { heard = record { end = end; length = length }; decoder = decoder } }
{
    let heard = Heard { end, length };
    Hearing { heard, decoder }
}

// The blocks from a decoder on, up to a call that gives no samples.
fn print_blocks<W: Write>(
    to: &mut W,
    s: &[u8],
    r: HpsReader,
    channel: usize,
    first: Decoder,
    from: usize,
    samples: &mut [i16],
) -> Result<Hearing, NotTaken>
    requires { Readable r × (Before s.now r channel first from × (length samples.old ≤ most_samples)) }
    ensures { HeardTo s.now r channel (length samples.old) result }
{
    let mut decoder = first;
    let mut length = from;
    // A loop: the call tells when it ends.
    loop {
        let call = decode(s, r, channel, decoder, samples);
        let n = match call.answer {
            Ok(Some(n)) => n,
            Ok(None) => return Ok(ended(Ok(()), length, decoder)),
            Err(refusal) => return Ok(ended(Err(refusal), length, decoder)),
        };
        let taken = print_samples(to, s, channel, length, &samples[..n])?;
        length += taken;
        decoder = call.decoder;
    }
}

// Whether more places would do.
fn is_short(end: Result<(), Refusal>) -> bool
    ensures { result ≡ is_short (ended_says end) }
{
    matches!(end, Err(Refusal::LentTooShort))
}

// Room for the samples of a block that was pushed.
fn pushed_room() -> [i16; LENGTH_LIMIT / 16 * 14]
    ensures { length result ≡ pushed_samples }
{
    [0; LENGTH_LIMIT / 16 * 14]
}

// Room for those of the longest block that a slot can hold.
fn long_room() -> [i16; 2 * SLOT_LIMIT / 16 * 14]
    ensures { length result ≡ most_samples }
{
    [0; 2 * SLOT_LIMIT / 16 * 14]
}

// In the room for the longest block.
fn print_long<W: Write>(
    to: &mut W,
    s: &[u8],
    r: HpsReader,
    channel: usize,
    first: Decoder,
    from: usize,
) -> Result<Heard, NotTaken>
    requires { Readable r × Before s.now r channel first from }
    ensures { HeardOf (channel_samples s.now channel) (channel_end s.now channel) result }
{
    let mut samples = long_room();
    let h = print_blocks(to, s, r, channel, first, from, &mut samples)?;
    Ok(h.heard)
}

// In the room for a block that was pushed; from a longer block on, in that for the longest. It calls itself for these, so that only they take the stack of the
// long room: a function that does not call itself the compiler may join to its caller.
fn print_rest<W: Write>(
    to: &mut W,
    s: &[u8],
    r: HpsReader,
    channel: usize,
    first: Decoder,
    from: usize,
    long: bool,
) -> Result<Heard, NotTaken>
    requires { Readable r × Before s.now r channel first from }
    ensures { HeardOf (channel_samples s.now channel) (channel_end s.now channel) result }
{
    if long {
        return print_long(to, s, r, channel, first, from);
    }
    let mut samples = pushed_room();
    let h = print_blocks(to, s, r, channel, first, from, &mut samples)?;
    let heard = h.heard;
    if is_short(heard.end) {
        return print_rest(to, s, r, channel, h.decoder, heard.length, true);
    }
    Ok(heard)
}

// Prints a channel's samples, up to those of which the system does not take all.
pub fn print_channel<W: Write>(to: &mut W, s: &[u8], channel: usize) -> Result<Heard, NotTaken>
    ensures { HeardOf (channel_samples s.now channel) (channel_end s.now channel) result }
{
    match open(s) {
        Ok(r) => print_rest(to, s, r, channel, new_decoder(), 0, false),
        Err(refusal) => Ok(Heard {
            end: Err(refusal),
            length: 0,
        }),
    }
}

// There is room for each block of a slot that opens.
pub fn room_for_each()
    ensures { RoomForEach }
{}
