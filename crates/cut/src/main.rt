// The marking key of every moment of a loading; `help` says how it is used.
#![tactic(auto)]

use cut_answer::files::{read_file, script_room};
use cut_answer::{Ask, answer};
use host_io::host::{arg, arg_count, fail, open_read};
use host_io::{buffer, read_full, write_all};
use key_print::slot_room;
use script_words::numbers::unsigned;
use std::env::Env;
use std::io::Write;
use std::rt::Files;

fn tell<E: Write>(err: &mut E, text: &[u8]) {
    write_all(err, text);
}

fn help<E: Write>(err: &mut E) {
    tell(
        err,
        b"cut EARLIER SCRIPT           each call's answer and writes, then the listing of every moment
cut EARLIER SCRIPT MOMENT    the listing of one moment

EARLIER has the slot's earlier content, 192 to 65,536 bytes; SCRIPT the loading calls, one a line.
A moment is the number of bytes of all writes, in order, that had reached the slot when the power
failed. So moments are prefixes; the theorem, PowerCut, covers any tearing: it says what the slot
opens to whatever values the write under way has left in its range.
docs/CUT.md has the script's words.
",
    );
}

// The argument MOMENT.
fn moment<R: Env>(rt: &R) -> Option<u64> {
    let mut word = buffer();
    let n = arg(rt, 3, &mut word);
    unsigned(&word[..n], u64::MAX)
}

// The answer on EARLIER. A slot that is too long is seen to be longer by its last byte.
fn answer_script<R: Env + Files, W: Write, E: Write>(
    rt: &R,
    to: &mut W,
    err: &mut E,
    text: &[u8],
    ask: Ask,
) {
    let mut name = buffer();
    let k = arg(rt, 1, &mut name);
    let mut slot = slot_room();
    if let Some(n) = read_file(rt, err, &name[..k], &mut slot) {
        answer(to, err, &slot[..n], text, ask);
    }
}

// SCRIPT, opened for reading, or none.
fn open_script<R: Env + Files, E: Write>(rt: &R, err: &mut E) -> Option<R::File> {
    let mut name = buffer();
    let k = arg(rt, 2, &mut name);
    match open_read(rt, &name[..k]) {
        Err(error) => {
            fail(err, &name[..k], error);
            None
        }
        Ok(file) => Some(file),
    }
}

// Reads SCRIPT and answers.
fn run<R: Env + Files, W: Write, E: Write>(rt: &R, to: &mut W, err: &mut E, ask: Ask) {
    let Some(mut file) = open_script(rt, err) else {
        return;
    };
    let mut text = script_room();
    let n = read_full(&mut file, &mut text);
    answer_script(rt, to, err, &text[..n], ask);
}

fn main(rt: HostRuntime) {
    let mut out = rt.stdout();
    let mut err = rt.stderr();
    let count = arg_count(&rt, 5);
    if count == 3 {
        run(&rt, &mut out, &mut err, Ask::All);
        return;
    }
    if count == 4 {
        if let Some(m) = moment(&rt) {
            run(&rt, &mut out, &mut err, Ask::Moment(m));
            return;
        }
    }
    help(&mut err);
}
