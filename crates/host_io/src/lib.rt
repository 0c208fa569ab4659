// Bytes written whole, a buffer read full, numbers printed, arguments and files by name, over readers and writers of std. What is read lies in arrays.
#![tactic(auto)]

pub mod host; // host.rt: arguments, files by name, what went wrong
pub mod remembering; // remembering.rt: a writer that remembers why a write failed

ghost use Rattle.std.specs.Prelude.{◌≡◌, true, ℕ, ◌≤◌, length, replicate, take};
ghost use Rattle.std.specs.Counts.{IsPrefixLen};
ghost use Rattle.std.specs.Fmt.{decimal};
ghost use Rattle.std.specs.Io.KnownBytes.{Appends, Consumes};
ghost use Rattle.host_io.specs.Partly.{AppendsPart};

use std::io::{Read, Write};

// Room for any path.
pub const PATH: usize = 4096;

// Room for a loop that moves much data.
pub const LARGE: usize = 65536;

// A buffer of N zeros.
pub fn zeros<const N: usize>() -> [u8; N]
    ensures zeros { result ≡ replicate N 0 }
    ensures long { N ≡ length result }
{
    [0; N]
}

pub fn buffer() -> [u8; PATH]
    ensures { 4096 ≡ length result }
{
    zeros()
}

pub fn large_buffer() -> [u8; LARGE]
    ensures { 65536 ≡ length result }
{
    zeros()
}

// Writes all of the bytes and returns true, or stops at the first write that takes nothing or fails and returns false, when some of them may have been
// written. With no bytes it makes no call.
pub fn write_all<W: Write>(out: &mut W, bytes: &[u8]) -> bool
    ensures all { result ≡ true → Appends (W.contents out.old) (W.contents out.new) bytes.now }
    ensures part { AppendsPart (W.contents out.old) (W.contents out.new) bytes.now }
{
    let mut rest = bytes;
    while !rest.is_empty() {
        match out.write(rest) {
            Ok(0) | Err(_) => return false,
            Ok(n) => rest = &rest[n..],
        }
    }
    true
}

// Reads until the buffer is full, the input ends or a read fails, and returns how many bytes it put at the buffer's start. On an empty buffer it makes no call.
pub fn read_full<R: Read>(input: &mut R, buf: &mut [u8]) -> usize
    ensures bound { IsPrefixLen result buf.new }
    ensures bytes { Consumes (R.remaining input.old) (R.remaining input.new) (take result buf.new) }
{
    // An index by hand: the count is the answer, and a slice that shrinks would need one beside it.
    let mut done = 0;
    while done < buf.len() {
        match input.read(&mut buf[done..]) {
            Ok(0) | Err(_) => break,
            Ok(n) => done += n,
        }
    }
    done
}

// Writes a number in decimal, with no line end, and returns whether it was taken whole.
pub fn print_decimal<W: Write>(out: &mut W, n: u64) -> bool
    ensures { result ≡ true → Appends (W.contents out.old) (W.contents out.new) (decimal n) }
{
    write!(out, "{n}").is_ok()
}

#[cfg(test)]
mod tests; // tests.rt: streams that take and give little at a time, and fail in the midst
