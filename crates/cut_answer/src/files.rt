// Files by name.
ghost use Rattle.std.specs.Prelude.{◌≡◌, replicate, IfSome};
ghost use Rattle.std.specs.Counts.{IsPrefixLen};

use host_io::host::{fail, open_read};
use host_io::read_full;
use std::io::Write;
use std::rt::Files;

// A byte more than the longest script has, by which a longer one is seen.
pub fn script_room() -> [u8; 1048577]
    ensures { result ≡ replicate 1048577 0 }
{
    [0; 1048577]
}

// As much of a file as a lent buffer holds: how many bytes of it stand there then, or none where the file can't be opened. What goes wrong is said on standard
// error, `err`.
pub fn read_file<R: Files, E: Write>(
    files: &R,
    err: &mut E,
    path: &[u8],
    into: &mut [u8],
) -> Option<usize>
    ensures { IfSome result (λ n. IsPrefixLen n into.new) }
{
    match open_read(files, path) {
        Ok(mut file) => Some(read_full(&mut file, into)),
        Err(error) => {
            fail(err, path, error);
            None
        }
    }
}
