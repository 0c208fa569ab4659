// A writer that remembers why a write failed.
ghost use Rattle.std.specs.Prelude.{◌≡◌, Some, None, IfErr, IfOk};
ghost use Rattle.std.specs.Io.{WritesAtMost};
ghost use Rattle.std.specs.Io.KnownBytes.{WriteAppends};
ghost use Rattle.host_io.specs.Partly.{Grows};

use crate::host::fail;
use std::io;
use std::io::{ErrorKind, Write};

// What is written goes to the writer inside.
#[derive(Drop)]
pub struct Remembering<W> {
    inner: W,
    error: Option<io::Error>,
}

impl<W: Write> Remembering<W> {
    pub fn new(inner: W) -> Remembering<W>
        ensures { result ≡ record { inner = inner; error = None } }
    {
        Remembering { inner, error: None }
    }

    // Writes a line: what failed, as the caller names it, a colon and why the last write that failed did.
    pub fn tell<E: Write>(&self, err: &mut E, what: &[u8])
        ensures { Grows (E.contents err.old) (E.contents err.new) }
    {
        let error = self.error.unwrap_or(io::Error::from(ErrorKind::WriteZero));
        fail(err, what, error)
    }
}

impl<W: Write> Write for Remembering<W> {
    ghost contents = { λ s. W.contents s.inner };

    fn write(&mut self, buf: &[u8]) -> io::Result<usize>
        ensures bound { WritesAtMost result buf.now }
        ensures bytes { WriteAppends (W.contents self.old.inner) (W.contents self.new.inner) result buf.now }
        ensures remembered { IfErr result (λ e. self.new.error ≡ Some e) }
        ensures kept { IfOk result (λ _. self.new.error ≡ self.old.error) }
    {
        let result = self.inner.write(buf);
        if let Err(error) = result {
            self.error = Some(error);
        }
        result
    }

    fn flush(&mut self) -> io::Result<()> {
        self.inner.flush()
    }
}
