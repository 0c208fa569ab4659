// The listing, line by line, and as much of it as a lent buffer holds.
ghost use Rattle.std.specs.Prelude.{◌≡◌, ◌<◌};
ghost use Rattle.reader.specs.OpeningAndReading.{Readable};
ghost use Rattle.key_listing.specs.declared.Stage.{Stage};
ghost use Rattle.key_listing.specs.Filling.{line_or, LineIs, FilledIs};

use crate::Stage;
use key_lines::{put_block, put_cue, put_head, put_loop, put_stop};
use layout_read::block::read_header;
use reader::{CueIterator, HpsReader};
use reader_cues::{ReadCue, first_cursor, next_cue};

// As many cue calls as an opened slot can need: 512 blocks of 255 cues, the Loop and the end.
const CUE_CALLS: usize = 130562;

// So many bytes were put, and what comes after them.
#[derive(Clone, Copy)]
pub struct Line {
    pub length: usize,
    pub stage: Stage,
}

// A line of n bytes and what comes after it; nothing where it was not put.
fn put_or(n: usize, next: Stage) -> Option<Line>
    ensures { result ≡ line_or n next }
{
    (n > 0).then_some(Line {
        length: n,
        stage: next,
    })
}

// The line of block i.
fn block_line(s: &[u8], r: HpsReader, i: usize, out: &mut [u8], at: usize) -> Option<Line>
    requires { Readable r × (i < r.blocks) }
    ensures { LineIs s.now r (Stage.Blocks i) out.old at out.new result }
{
    let offset = r.offsets[i];
    let Ok(header) = read_header(s, offset) else {
        return None;
    };
    let n = put_block(out, at, r.channels[0].format, i, offset, header);
    put_or(n, Stage::Blocks(i + 1))
}

// The line of the next cue, where so many calls may still be made.
fn cue_line(
    s: &[u8],
    r: HpsReader,
    calls: usize,
    c: CueIterator,
    out: &mut [u8],
    at: usize,
) -> Option<Line>
    requires { Readable r }
    ensures { LineIs s.now r (Stage.Cues calls c) out.old at out.new result }
{
    if calls == 0 {
        return None;
    }
    let call = next_cue(s, r, c);
    let Ok(answer) = call.answer else {
        return None;
    };
    let cue = answer?;
    let n = match cue {
        ReadCue::Loop(start) => put_loop(out, at, start),
        ReadCue::Point(start, id) => put_cue(out, at, start, id),
    };
    put_or(n, Stage::Cues(calls - 1, call.cursor))
}

// The next line from an offset of the buffer on, where there is one and it fits.
fn next_line(s: &[u8], r: HpsReader, stage: Stage, out: &mut [u8], at: usize) -> Option<Line>
    requires { Readable r }
    ensures { LineIs s.now r stage out.old at out.new result }
{
    match stage {
        Stage::Stop(number) => put_or(put_stop(out, at, number), Stage::Done),
        Stage::Head => put_or(put_head(out, at, r), Stage::Blocks(0)),
        Stage::Blocks(i) if i < r.blocks => block_line(s, r, i, out, at),
        Stage::Blocks(_) => cue_line(s, r, CUE_CALLS, first_cursor(r), out, at),
        Stage::Cues(calls, c) => cue_line(s, r, calls, c, out, at),
        Stage::Done => None,
    }
}

// As many whole lines as fit, from the buffer's start, their bytes, and the stage after them.
// A buffer of 60 bytes or more takes a line at least, if one is left.
pub fn fill(s: &[u8], r: HpsReader, from: Stage, out: &mut [u8]) -> Line
    requires { Readable r }
    ensures { FilledIs s.now r from out.old out.new result }
{
    let mut stage = from;
    let mut length = 0;
    while let Some(line) = next_line(s, r, stage, out, length) {
        stage = line.stage;
        length += line.length;
    }
    Line { length, stage }
}
