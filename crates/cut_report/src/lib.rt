// The lines of `cut` beside listings, and how one is printed.
#![tactic(auto)]

ghost use Rattle.std.specs.Prelude.{◌≡◌, ◌≤◌, length};
ghost use Rattle.key_lines.specs.Lines.{line};
ghost use Rattle.writer.specs.Calls.{reply_by};
ghost use Rattle.cut_report.specs.Report.{reply_line, write_line, time_line, script_line, line_in};

use host_io::write_all;
use key_lines::Column;
use key_lines::line::put_line;
use std::io::Write;
use writer::{Place, Writes};

// The room of a line: its word, three columns of the widest kind, the newline.
const LINE_ROOM: usize = 4 + 3 * 21 + 1;

// A line, at the start of its room, with its length, since the code allocates nothing.
#[derive(Clone, Copy)]
pub struct ReportLine {
    bytes: [u8; LINE_ROOM],
    length: usize,
}

// A line of three columns at most.
fn line_of(word: &[u8; 4], columns: &[Column]) -> ReportLine
    requires { length columns.now ≤ 3 }
    ensures { line_in result ≡ line word.now columns.now }
{
    let mut bytes = [0u8; LINE_ROOM];
    let length = put_line(&mut bytes, 0, word, columns);
    ReportLine { bytes, length }
}

// A call's answer, a refusal by any number.
pub fn reply_line(call: u64, answer: Result<Writes, u32>) -> ReportLine
    ensures { line_in result ≡ reply_line call (reply_by (λ n. n) answer) }
{
    let number = Column::Number(call);
    match answer {
        Err(why) => line_of(b"STOP", &[number, Column::Number(why as u64)]),
        Ok(Writes::None) => line_of(b"DONE", &[number]),
        Ok(Writes::One(_)) => line_of(b"DONE", &[number]),
        Ok(Writes::Three(length, _, _, _)) => {
            line_of(b"DONE", &[number, Column::Number(length as u64)])
        }
    }
}

pub fn write_line(call: u64, place: Place) -> ReportLine
    ensures { line_in result ≡ write_line call place }
{
    let offset = Column::Number(place.offset as u64);
    let length = Column::Number(place.length as u64);
    line_of(b"WRIT", &[Column::Number(call), offset, length])
}

pub fn time_line(first: usize, last: usize) -> ReportLine
    ensures { line_in result ≡ time_line first last }
{
    let from = Column::Number(first as u64);
    line_of(b"TIME", &[from, Column::Number(last as u64)])
}

pub fn script_line(number: usize) -> ReportLine
    ensures { line_in result ≡ script_line number }
{
    line_of(b"LINE", &[Column::Number(number as u64)])
}

// What is handed to the system is the line, which is there for the premise alone.
fn hand_over<W: Write>(to: &mut W, l: ReportLine, bytes: &[u8])
    requires { bytes.now ≡ line_in l }
{
    write_all(to, bytes);
}

// Prints a line; how many bytes the system was handed.
pub fn print_line<W: Write>(to: &mut W, l: ReportLine) -> usize
    ensures { result ≡ length (line_in l) }
{
    let bytes = l.bytes;
    let n = l.length;
    if n > LINE_ROOM {
        return 0;
    }
    hand_over(to, l, &bytes[..n]);
    n
}
