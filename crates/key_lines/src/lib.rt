// The lines of the listing (document 01, "Marking key and estimate"), each put into a lent buffer from an offset on.
// The answer is how many bytes were put: the line's length, or 0 where it does not fit wholly.
#![tactic(auto)]

ghost use Rattle.std.specs.Prelude.{◌≡◌};
ghost use Rattle.layout.specs.Records.{length_in};
ghost use Rattle.key_lines.specs.Lines.{stop_line, head_line, loop_column, block_line, loop_line, cue_line, LinePut};

use crate::line::put_line;
use layout::{BlockHeader, DspFormat};
use layout_sizes::num_samples;
use reader::HpsReader;

pub mod columns; // columns.rt: a column, right-justified
pub mod line; // line.rt: a word, its columns and a newline

// A column: a number of 11 columns, a cue's start of 21, or `-` in the last of 11.
#[derive(Clone, Copy)]
pub enum Column {
    Number(u64),
    Start(u64),
    Minus,
}

pub fn put_stop(out: &mut [u8], at: usize, number: u32) -> usize
    ensures { LinePut out.old at (stop_line number) out.new result }
{
    put_line(out, at, b"STOP", &[Column::Number(number as u64)])
}

// The loop block's index, or `-`.
fn loop_column(start: Option<usize>) -> Column
    ensures { result ≡ loop_column start }
{
    match start {
        None => Column::Minus,
        Some(i) => Column::Number(i as u64),
    }
}

pub fn put_head(out: &mut [u8], at: usize, r: HpsReader) -> usize
    ensures { LinePut out.old at (head_line r) out.new result }
{
    let columns = [
        Column::Number(r.rate as u64),
        Column::Number(r.count as u64),
        Column::Number(r.blocks as u64),
        loop_column(r.loop_start),
    ];
    put_line(out, at, b"HEAD", &columns)
}

pub fn put_block(
    out: &mut [u8],
    at: usize,
    format: DspFormat,
    index: usize,
    offset: u32,
    h: BlockHeader,
) -> usize
    ensures { LinePut out.old at (block_line format index offset (length_in h) h.cues) out.new result }
{
    let columns = [
        Column::Number(index as u64),
        Column::Number(offset as u64),
        Column::Number(h.end_address as u64 + 1),
        Column::Number(num_samples(h.end_address, format)),
        Column::Number(h.cues as u64),
    ];
    put_line(out, at, b"BLCK", &columns)
}

pub fn put_loop(out: &mut [u8], at: usize, start: u64) -> usize
    ensures { LinePut out.old at (loop_line start) out.new result }
{
    put_line(out, at, b"LOOP", &[Column::Start(start)])
}

pub fn put_cue(out: &mut [u8], at: usize, start: u64, id: u32) -> usize
    ensures { LinePut out.old at (cue_line start id) out.new result }
{
    put_line(
        out,
        at,
        b"CUEP",
        &[Column::Start(start), Column::Number(id as u64)],
    )
}
