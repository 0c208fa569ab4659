// Streams that take and give little at a time, and fail in the midst.
ghost use Rattle.std.specs.Prelude.{◌≤◌};

use crate::host::{arg, arg_count, argument, fail, open_read};
use crate::remembering::Remembering;
use crate::{LARGE, buffer, large_buffer, print_decimal, read_full, write_all, zeros};
use std::alloc::Global;
use std::io;
use std::io::{ErrorKind, Read, Write};

// Takes three bytes a call, and fails in the call after the last that it takes.
#[derive(Drop)]
struct Narrow {
    bytes: Vec<u8>,
    left: usize,
}

impl Write for Narrow {
    fn write(&mut self, buf: &[u8]) -> io::Result<usize> {
        if self.left == 0 {
            return Err(io::Error::from_raw_os_error(28));
        }
        let n = buf.len().min(3);
        self.bytes.extend_from_slice(&buf[..n])?;
        self.left -= 1;
        Ok(n)
    }

    fn flush(&mut self) -> io::Result<()> {
        Ok(())
    }
}

fn takes(alloc: Global, left: usize) -> Narrow {
    Narrow {
        bytes: Vec::new(alloc),
        left,
    }
}

// Gives 7s, three a call, and fails in one call.
#[derive(Drop)]
struct Sevens {
    calls: usize,
    failing: usize,
    last: usize,
}

impl Read for Sevens {
    fn read(&mut self, buf: &mut [u8]) -> io::Result<usize> {
        if self.calls == self.failing {
            self.calls = self.calls.saturating_add(1);
            return Err(io::Error::from_raw_os_error(5));
        }
        if self.calls >= self.last {
            return Ok(0);
        }
        self.calls = self.calls.saturating_add(1);
        let n = buf.len().min(3);
        buf[..n].fill(7);
        Ok(n)
    }
}

#[test]
fn writes_all_or_tells(rt: HostRuntime) {
    let mut out = takes(rt.alloc(), 4);
    assert!(rt; write_all(&mut out, b"0123456789"));
    assert_eq!(rt; out.bytes.as_slice(), b"0123456789".as_slice());
    assert!(rt; write_all(&mut out, b""));
    assert!(rt; !write_all(&mut out, b"1"));
    let mut short = takes(rt.alloc(), 3);
    assert!(rt; !write_all(&mut short, b"0123456789"));
    assert_eq!(rt; short.bytes.as_slice(), b"012345678".as_slice());
    assert!(rt; !write_all(&mut short, b"9"));
}

#[test]
fn reads_until_full_ended_or_failed(rt: HostRuntime) {
    let mut room = [0u8; 8];
    let mut whole = Sevens {
        calls: 0,
        failing: 100,
        last: 100,
    };
    assert_eq!(rt; read_full(&mut whole, &mut room), 8);
    assert_eq!(rt; room, [7u8; 8]);
    let mut ended = Sevens {
        calls: 0,
        failing: 100,
        last: 2,
    };
    assert_eq!(rt; read_full(&mut ended, &mut room), 6);
    assert_eq!(rt; read_full(&mut ended, &mut room), 0);
    let mut failing = Sevens {
        calls: 0,
        failing: 1,
        last: 3,
    };
    let mut rest = [0u8; 8];
    assert_eq!(rt; read_full(&mut failing, &mut rest), 3);
    assert_eq!(rt; rest, [7u8, 7, 7, 0, 0, 0, 0, 0]);
    assert_eq!(rt; read_full(&mut failing, &mut rest[3..]), 3);
}

#[test]
fn prints_numbers(rt: HostRuntime) {
    let mut out = Vec::new(rt.alloc());
    assert!(rt; print_decimal(&mut out, 0));
    assert!(rt; print_decimal(&mut out, 18446744073709551615));
    assert_eq!(rt; out.as_slice(), b"018446744073709551615".as_slice());
    let mut short = takes(rt.alloc(), 1);
    assert!(rt; !print_decimal(&mut short, 12345));
}

#[test]
fn tells_what_failed(rt: HostRuntime) {
    let mut err = Vec::new(rt.alloc());
    fail(&mut err, b"a", io::Error::from_raw_os_error(2));
    fail(&mut err, b"", io::Error::new(ErrorKind::Other, "b"));
    assert_eq!(rt;
        err.as_slice(),
        b"a: No such file or directory\n: b\n".as_slice()
    );
    let mut out = Remembering::new(takes(rt.alloc(), 1));
    assert!(rt; write_all(&mut out, b"123"));
    assert!(rt; !write_all(&mut out, b"4"));
    let mut told = Vec::new(rt.alloc());
    out.tell(&mut told, b"standard output");
    assert_eq!(rt;
        told.as_slice(),
        b"standard output: No space left on device\n".as_slice()
    );
}

#[test]
fn reaches_arguments_and_files(rt: HostRuntime) {
    let mut room = buffer();
    assert!(rt; arg_count(&rt, 1) == 1);
    assert!(rt; arg(&rt, 0, &mut room) > 0);
    assert_eq!(rt; arg(&rt, 0, &mut []), 0);
    assert_eq!(rt; arg(&rt, 1000, &mut room), 0);
    assert!(rt; argument(&rt, 0, &mut room).is_some());
    assert_eq!(rt; argument(&rt, 0, &mut []), None);
    assert_eq!(rt; argument(&rt, 1000, &mut room), None);
    assert!(rt; open_read(&rt, b"no such file").is_err());
    assert!(rt; open_read(&rt, b"\xff").is_err());
    let mut large = large_buffer();
    let mut file = open_read(&rt, b"/dev/zero").expect(&rt, "a file of zeros");
    assert_eq!(rt; read_full(&mut file, &mut large), 65536);
    assert_eq!(rt; large, zeros::<LARGE>());
}
