// Takes and gives of two decoders on one frame pool, from standard input, and their answers on standard output; `help` says how it is used.
#![tactic(auto)]

ghost use Rattle.std.specs.Prelude.{◌-◌, ◌≤◌, ◌<◌, ◌≡◌, length, drop};
ghost use Rattle.std.proofs.Math.Seq.{paste};
ghost use Rattle.script_words.specs.Texts.{parted};
ghost use Rattle.frame_pool_lines.specs.PoolText.{answers_from};

use frame_pool_lines::says::LINE_LIMIT;
use frame_pool_lines::{Progress, answer_lines, new_progress};
use host_io::host::{arg_count, fail};
use host_io::remembering::Remembering;
use host_io::{LARGE, PATH, write_all, zeros};
use script_words::text::whole_lines;
use std::io::{Read, Write};

fn help<E: Write>(err: &mut E) {
    write_all(
        err,
        b"pool    takes and gives of two decoders on one pool of sixteen frames

Reads lines TAKE A, TAKE B, GIVE A n and GIVE B n from standard input, and prints for each a line:
FRAM and the frame, DONE, or STOP and the number that refuses it: 32 a take, 33 a give.
At the first line that is none of these it prints LINE and the line's number, and ends.
",
    );
}

// The room for a portion: a line that says a call, its newline with it, fits into it.
const ROOM: usize = LINE_LIMIT + 1;

// Where the lines so far have led, and how many bytes at the start of the room are held for the next portion: less than a line.
#[derive(Clone, Copy)]
struct Turn {
    progress: Progress,
    held: usize,
}

// Nothing more is read.
fn stopped(progress: Progress) -> Turn
    ensures { result.held < 4096 }
{
    Turn {
        progress: Progress {
            ended: true,
            ..progress
        },
        held: 0,
    }
}

// What is handed to the system are the answers to the lines of this text: progress and text are there for the premise alone.
fn write_answers<W: Write>(to: &mut W, from: Progress, text: &[u8], answers: &[u8]) -> bool
    requires { answers.now ≡ answers_from from (parted text.now) }
{
    write_all(to, answers)
}

// Prints the answers to the lines of a text, and holds so many bytes for the next portion.
fn answer<W: Write, E: Write>(
    to: &mut Remembering<W>,
    err: &mut E,
    from: Progress,
    text: &[u8],
    held: usize,
) -> Turn
    requires { (length text.now ≤ 4096) × (held < 4096) }
    ensures { result.held < 4096 }
{
    let mut out = zeros::<LARGE>();
    let answered = answer_lines(from, text, &mut out);
    let n = answered.length;
    let progress = answered.progress;
    if !write_answers(to, from, text, &out[..n]) {
        to.tell(err, b"standard output");
        return stopped(progress);
    }
    Turn { progress, held }
}

// The bytes from here to n go to the start of the room.
fn hold(room: &mut [u8], from: usize, n: usize)
    requires { (from ≤ n) × (n ≤ length room.old) }
    ensures { room.new ≡ paste room.old 0 (drop from room.old) (n - from) }
{
    room.copy_within(from..n, 0);
}

// How many of the bytes in the room are answered: its whole lines; or all of them, where it is full and they are less than a line.
fn answerable(bytes: &[u8]) -> usize
    requires { length bytes.now ≤ 4096 }
    ensures { (result ≤ length bytes.now) × (length bytes.now - result < 4096) }
{
    let n = whole_lines(bytes);
    if n == 0 && bytes.len() == ROOM {
        return ROOM;
    }
    n
}

// Answers what the room has of whole lines in its first n bytes, and holds the rest.
fn answer_read<W: Write, E: Write>(
    to: &mut Remembering<W>,
    err: &mut E,
    from: Progress,
    room: &mut [u8],
    n: usize,
) -> Turn
    requires { (length room.old ≡ 4096) × (n ≤ 4096) }
    ensures { result.held < 4096 }
{
    let whole = answerable(&room[..n]);
    let turn = answer(to, err, from, &room[..whole], n - whole);
    hold(room, whole, n);
    turn
}

// Reads a portion behind the bytes that are held, and answers its lines. At the end of the input what is held is the last line.
fn answer_some<R: Read, W: Write, E: Write>(
    input: &mut R,
    to: &mut Remembering<W>,
    err: &mut E,
    from: Progress,
    room: &mut [u8],
    held: usize,
) -> Turn
    requires { (length room.old ≡ 4096) × (held < 4096) }
    ensures { result.held < 4096 }
{
    match input.read(&mut room[held..]) {
        Err(error) => {
            fail(err, b"standard input", error);
            stopped(from)
        }
        Ok(0) => {
            let last = answer(to, err, from, &room[..held], 0);
            stopped(last.progress)
        }
        Ok(k) => answer_read(to, err, from, room, held + k),
    }
}

// Portion after portion. That it ends is proved by the count of what may still come: more portions than any input has.
fn answer_all<R: Read, W: Write, E: Write>(input: &mut R, to: &mut Remembering<W>, err: &mut E) {
    let mut room = zeros::<PATH>();
    let mut progress = new_progress();
    let mut held: usize = 0;
    for _ in 0..u64::MAX {
        if progress.ended {
            return;
        }
        let turn = answer_some(input, to, err, progress, &mut room, held);
        progress = turn.progress;
        held = turn.held;
    }
}

fn main(rt: HostRuntime) {
    let mut err = rt.stderr();
    if arg_count(&rt, 2) != 1 {
        help(&mut err);
        return;
    }
    let mut out = Remembering::new(rt.stdout());
    answer_all(&mut rt.stdin(), &mut out, &mut err);
}
