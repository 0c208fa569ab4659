// A line's columns, put into a lent buffer: right-justified decimals, or `-`.
ghost use Rattle.std.specs.Prelude.{◌≡◌, ◌+◌, ◌%◌, length};
ghost use Rattle.layout.specs.Puts.{put_at};
ghost use Rattle.key_lines.specs.Lines.{column, column_bytes, FieldPut};

use crate::Column;
use layout::fields::inside;
use layout_put::{put_bytes, put_fill};

// The last digit of a number.
fn digit(n: u64) -> u8
    ensures { result ≡ 48 + n % 10 }
{
    b'0' + (n % 10) as u8
}

// A number right-justified in so many columns, where they fit: from the last digit on; once no digit is left, blanks.
pub fn put_column(out: &mut [u8], at: usize, width: usize, n: u64)
    ensures { out.new ≡ put_at out.old at (column width n) }
{
    if inside(out.len(), at, width) {
        let mut left = n;
        for k in (0..width).rev() {
            out[at + k] = digit(left);
            if left < 10 {
                put_fill(out, at, k, b' ');
                return;
            }
            left /= 10;
        }
    }
}

// How many bytes a column has.
pub(crate) fn width(column: Column) -> usize
    ensures { result ≡ length (column_bytes column) }
{
    match column {
        Column::Number(_) => 11,
        Column::Start(_) => 21,
        Column::Minus => 11,
    }
}

// Puts a column, and answers how many bytes it has.
pub(crate) fn put_field(out: &mut [u8], at: usize, column: Column) -> usize
    ensures { FieldPut out.old at column out.new result }
{
    match column {
        Column::Number(n) => {
            put_column(out, at, 11, n);
            11
        }
        Column::Start(n) => {
            put_column(out, at, 21, n);
            21
        }
        Column::Minus => {
            put_bytes(out, at, b"          -");
            11
        }
    }
}
