// The examples: each is answered into a file and held to its listing. Prints a line for each.
#![tactic(auto)]

use cut_answer::files::read_file;
use cut_answer::{Ask, answer};
use host_io::{large_buffer, write_all};
use key_print::slot_room;
use std::fs;
use std::io::Write;
use std::rt::Files;

// Whether two files are the same; what they have past 65,536 bytes is not looked at.
fn same_files<R: Files, E: Write>(files: &R, err: &mut E, one: &[u8], two: &[u8]) -> bool {
    let mut here = large_buffer();
    let mut there = large_buffer();
    let a = read_file(files, err, one, &mut here);
    let b = read_file(files, err, two, &mut there);
    match (a, b) {
        (Some(n), Some(m)) => here[..n] == there[..m],
        _ => false,
    }
}

fn write_answer<R: Files, E: Write>(
    files: &R,
    err: &mut E,
    earlier: &[u8],
    script: &[u8],
    ask: Ask,
) {
    if let Ok(mut file) = fs::create(files, "answer") {
        answer(&mut file, err, earlier, script, ask);
    }
}

fn run<R: Files, W: Write, E: Write>(
    files: &R,
    to: &mut W,
    err: &mut E,
    slot: &[u8],
    script: &[u8],
    listing: &[u8],
    ask: Ask,
) {
    let mut earlier = slot_room();
    let mut text = large_buffer();
    let n = read_file(files, err, slot, &mut earlier).unwrap_or(0);
    let m = read_file(files, err, script, &mut text).unwrap_or(0);
    write_answer(files, err, &earlier[..n], &text[..m], ask);
    write_all(to, listing);
    if same_files(files, err, b"answer", listing) {
        write_all(to, b" same\n");
    } else {
        write_all(to, b" other\n");
    }
}

fn main(rt: HostRuntime) {
    let mut out = rt.stdout();
    let mut err = rt.stderr();
    run(
        &rt,
        &mut out,
        &mut err,
        b"noise.slot",
        b"stereo.script",
        b"stereo.listing",
        Ask::All,
    );
    run(
        &rt,
        &mut out,
        &mut err,
        b"noise.slot",
        b"refused.script",
        b"refused.listing",
        Ask::All,
    );
    run(
        &rt,
        &mut out,
        &mut err,
        b"noise.slot",
        b"refused-begin.script",
        b"refused-begin.listing",
        Ask::All,
    );
    run(
        &rt,
        &mut out,
        &mut err,
        b"noise.slot",
        b"stereo.script",
        b"stereo.385.listing",
        Ask::Moment(385),
    );
    run(
        &rt,
        &mut out,
        &mut err,
        b"music.slot",
        b"chapter.script",
        b"chapter.listing",
        Ask::All,
    );
}
