// Arguments, files by name, what went wrong.
ghost use Rattle.std.specs.Prelude.{◌≤◌, IfSome};
ghost use Rattle.std.specs.Counts.{IsPrefixLen};
ghost use Rattle.host_io.specs.Partly.{CountedTo, Grows, RefusesOther};

use crate::write_all;
use std::env::{Env, FillError};
use std::io::{Cursor, ErrorKind, Write};
use std::rt::Files;
use std::str::from_utf8;
use std::{fs, io};

// How many arguments the program was started with, its own name among them, counted up to `most`.
pub fn arg_count<E: Env>(rt: &E, most: usize) -> usize
    ensures { CountedTo most result }
{
    let mut room = [0u8; 1];
    for i in 0..most {
        if let Err(FillError::NotPresent) = rt.arg(i, &mut room) {
            return i;
        }
    }
    most
}

// Puts argument i at the start of the buffer and returns its length, or nothing where it is missing or longer than the buffer.
pub fn argument<E: Env>(rt: &E, i: usize, buf: &mut [u8]) -> Option<usize>
    ensures { IfSome result (λ n. IsPrefixLen n buf.new) }
{
    rt.arg(i, buf).ok()
}

// The same, with 0 for nothing.
pub fn arg<E: Env>(rt: &E, i: usize, buf: &mut [u8]) -> usize
    ensures { IsPrefixLen result buf.new }
{
    argument(rt, i, buf).unwrap_or(0)
}

// The file of this name, opened for reading.
pub fn open_read<R: Files>(files: &R, path: &[u8]) -> io::Result<R::File>
    ensures { RefusesOther path.now result }
{
    match from_utf8(path) {
        Ok(name) => fs::open(files, name),
        Err(_) => Err(io::Error::new(ErrorKind::InvalidInput, "The name is not UTF-8")),
    }
}

// The longest text of an error.
const TEXT: usize = 256;

// What comes before an error's number.
const NUMBER: &[u8] = b" (os error ";

// How many bytes of an error's text come before its number, which stands behind it in brackets.
fn plain_length(text: &[u8]) -> usize
    ensures { IsPrefixLen result text.now }
{
    text.windows(NUMBER.len())
        .position(|part| part == NUMBER)
        .unwrap_or(text.len())
}

// Writes a line: what failed, as the caller names it, a colon and the error's text.
pub fn fail<W: Write>(out: &mut W, what: &[u8], error: io::Error)
    ensures { Grows (W.contents out.old) (W.contents out.new) }
{
    let mut text = Cursor::new([0u8; TEXT]);
    let _ = write!(text, "{error}");
    let length = (text.position() as usize).min(TEXT);
    let bytes = text.into_inner();
    let n = plain_length(&bytes[..length]);
    write_all(out, what);
    write_all(out, b": ");
    write_all(out, &bytes[..n]);
    write_all(out, b"\n");
}
