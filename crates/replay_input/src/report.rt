// What is printed of a case.
ghost use Rattle.std.specs.Prelude.{◌≤◌, ◌≡◌};
ghost use Rattle.replay_input.specs.Parts.{others_at};

use host_io::{print_decimal, write_all};
use std::io::Write;

fn print_count<W: Write>(to: &mut W, n: usize, word: &[u8]) {
    print_decimal(to, n as u64);
    write_all(to, word);
}

// Prints a case in which something is other than recorded, with its place there. Gives how many such cases this is.
pub fn report_case<W: Write>(to: &mut W, case: usize, place: Option<usize>) -> usize
    ensures value { result ≡ others_at place }
    ensures upper_bound { result ≤ 1 }
{
    match place {
        None => 0,
        Some(there) => {
            write_all(to, b"other: case ");
            print_count(to, case, b" at ");
            print_count(to, there, b"\n");
            1
        }
    }
}
