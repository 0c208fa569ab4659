// Samples, 16 bits little-endian, faded from standard input to standard output; `help` says how it is used.
#![tactic(auto)]

ghost use Rattle.std.specs.Prelude.{◌-◌, ◌%◌, ◌≤◌, ◌<◌, ◌≡◌, length, get_or, set, IfSome};

use fader_pcm::fade_pcm;
use host_io::host::{arg_count, argument, fail};
use host_io::remembering::Remembering;
use host_io::{LARGE, PATH, write_all, zeros};
use key_print::print_stop;
use script_words::numbers::unsigned;
use std::env::Env;
use std::io::{Read, Write};

fn help<E: Write>(err: &mut E) {
    write_all(
        err,
        b"fade LEVEL    samples, 16 bits little-endian, faded from standard input to standard output

LEVEL is 0 (silence) to 1,023 (as they are). A refusal is a line STOP and its number on standard error.
",
    );
}

// The input has ended, with half a sample or without.
fn at_end<E: Write>(err: &mut E, held: usize) {
    if held != 0 {
        write_all(
            err,
            b"fade: the last byte is half a sample: it was left out\n",
        );
    }
}

// Fades the samples of a portion and prints them; half a sample at its end is left where it is. The level is not refused.
fn print_faded<W: Write>(to: &mut W, level: usize, bytes: &mut [u8]) -> bool {
    let _ = fade_pcm(level, bytes);
    let n = bytes.len();
    write_all(to, &bytes[..n - n % 2])
}

// Half a sample at the end of the first n bytes goes to the start of the room; how many bytes are held.
fn hold(room: &mut [u8], n: usize) -> usize
    requires { (0 < n) × (n ≤ length room.old) }
    ensures value { result ≡ n % 2 }
    ensures room_after { room.new ≡ set room.old 0 (get_or room.old (n - 1) 0) }
{
    room[0] = room[n - 1];
    n % 2
}

// Reads a portion behind the bytes that are held, and prints it faded. How many bytes are held then, 1 where half a sample is; nothing after the last portion.
fn fade_some<R: Read, W: Write, E: Write>(
    from: &mut R,
    to: &mut Remembering<W>,
    err: &mut E,
    level: usize,
    room: &mut [u8],
    held: usize,
) -> Option<usize>
    requires { (length room.old ≡ 65536) × (held ≤ 1) }
    ensures { IfSome result (λ n. n ≤ 1) }
{
    match from.read(&mut room[held..]) {
        Err(error) => {
            fail(err, b"standard input", error);
            None
        }
        Ok(0) => {
            at_end(err, held);
            None
        }
        Ok(k) => {
            let n = held + k;
            if !print_faded(to, level, &mut room[..n]) {
                to.tell(err, b"standard output");
                return None;
            }
            Some(hold(room, n))
        }
    }
}

// Portion after portion. That it ends is proved by the count of what may still come: more portions than any input has.
fn fade_all<R: Read, W: Write, E: Write>(
    from: &mut R,
    to: &mut Remembering<W>,
    err: &mut E,
    level: usize,
) {
    let mut room = zeros::<LARGE>();
    let mut held: usize = 0;
    for _ in 0..u64::MAX {
        match fade_some(from, to, err, level, &mut room, held) {
            Some(n) => held = n,
            None => return,
        }
    }
}

// The argument LEVEL.
fn level<R: Env>(rt: &R) -> Option<usize> {
    let mut word = zeros::<PATH>();
    let n = argument(rt, 1, &mut word)?;
    Some(unsigned(&word[..n], u64::MAX)? as usize)
}

fn main(rt: HostRuntime) {
    let mut err = rt.stderr();
    match level(&rt) {
        Some(level) if arg_count(&rt, 3) == 2 => match fade_pcm(level, &mut []) {
            Err(why) => {
                print_stop(&mut err, why.into());
            }
            Ok(()) => {
                let mut out = Remembering::new(rt.stdout());
                fade_all(&mut rt.stdin(), &mut out, &mut err, level);
            }
        },
        _ => help(&mut err),
    }
}
