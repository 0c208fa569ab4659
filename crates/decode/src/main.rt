// A channel's samples, 16 bits little-endian, on standard output; `help` says how it is used.
#![tactic(auto)]

ghost use Rattle.std.specs.Prelude.{◌≡◌, ◌+◌, length};
ghost use Rattle.layout.specs.Refusals.{slot_limit};
ghost use Rattle.std.specs.Counts.{IsPrefixLen};

use decode_print::print_channel;
use host_io::host::{arg, arg_count, fail, open_read};
use host_io::remembering::Remembering;
use host_io::{buffer, read_full, write_all};
use key_print::{print_stop, slot_room};
use layout::limits::{KEY_LIMIT, SLOT_LIMIT};
use script_words::numbers::unsigned;
use std::env::Env;
use std::io;
use std::io::{Read, Write};
use std::rt::Files;

fn help<E: Write>(err: &mut E) {
    write_all(
        err,
        b"decode SLOT CHANNEL    the channel's samples, 16 bits little-endian, on standard output

SLOT is a file of at most 16,777,216 bytes, CHANNEL 0 or 1. A refusal is a line STOP and its number
on standard error. Slots of more than 65,536 bytes need a stack of 96 MiB: bin/decode sees to that.
",
    );
}

// Room for the longest slot, and a byte more, by which a longer one is seen.
fn long_room() -> [u8; SLOT_LIMIT + 1]
    ensures { length result ≡ slot_limit + 1 }
{
    [0; SLOT_LIMIT + 1]
}

// Prints the channel, and what ended it where that was not its end.
fn print<W: Write, E: Write>(to: &mut Remembering<W>, err: &mut E, slot: &[u8], channel: usize) {
    match print_channel(to, slot, channel) {
        Err(_) => to.tell(err, b"standard output"),
        Ok(heard) => {
            if let Err(refusal) = heard.end {
                print_stop(err, u32::from(refusal));
            }
        }
    }
}

// Reads on behind the first bytes of a slot; how many bytes there are then.
fn read_on<F: Read>(file: &mut F, first: &[u8], slot: &mut [u8]) -> usize
    ensures { IsPrefixLen result slot.new }
{
    let k = first.len();
    if k > slot.len() {
        return 0;
    }
    slot[..k].copy_from_slice(first);
    let n = read_full(file, &mut slot[k..]);
    k + n
}

// A slot that is longer than its first bytes.
fn print_long<F: Read, W: Write, E: Write>(
    file: &mut F,
    to: &mut Remembering<W>,
    err: &mut E,
    first: &[u8],
    channel: usize,
) {
    let mut slot = long_room();
    let n = read_on(file, first, &mut slot);
    print(to, err, &slot[..n], channel);
}

// The slot in the room of the marking key; a longer one, of which these are the first bytes, in that of the longest. It calls itself for these, so that only
// they take the stack of the long room: a function that does not call itself the compiler may join to its caller.
fn print_slot<F: Read, W: Write, E: Write>(
    file: &mut F,
    to: &mut Remembering<W>,
    err: &mut E,
    first: &[u8],
    channel: usize,
    long: bool,
) {
    if long {
        print_long(file, to, err, first, channel);
        return;
    }
    let mut slot = slot_room();
    let n = read_full(file, &mut slot);
    if n > KEY_LIMIT {
        print_slot(file, to, err, &slot[..n], channel, true);
        return;
    }
    print(to, err, &slot[..n], channel);
}

// A file, opened for reading. A read of no bytes tells a folder.
fn readable<R: Files>(files: &R, path: &[u8]) -> io::Result<R::File> {
    let mut file = open_read(files, path)?;
    file.read(&mut [])?;
    Ok(file)
}

// SLOT, or none.
fn open_slot<R: Env + Files, E: Write>(rt: &R, err: &mut E) -> Option<R::File> {
    let mut name = buffer();
    let k = arg(rt, 1, &mut name);
    match readable(rt, &name[..k]) {
        Ok(file) => Some(file),
        Err(error) => {
            fail(err, &name[..k], error);
            None
        }
    }
}

// The argument CHANNEL.
fn channel<R: Env>(rt: &R) -> Option<u64> {
    let mut word = buffer();
    let n = arg(rt, 2, &mut word);
    unsigned(&word[..n], u64::MAX)
}

fn main(rt: HostRuntime) {
    let mut err = rt.stderr();
    let Some(channel) = channel(&rt) else {
        help(&mut err);
        return;
    };
    if arg_count(&rt, 4) != 3 {
        help(&mut err);
        return;
    }
    let Some(mut file) = open_slot(&rt, &mut err) else {
        return;
    };
    let mut out = Remembering::new(rt.stdout());
    print_slot(&mut file, &mut out, &mut err, b"", channel as usize, false);
}
