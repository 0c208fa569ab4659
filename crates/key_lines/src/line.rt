// A line: a four-letter word, its columns, and a newline.
ghost use Rattle.std.specs.Prelude.{◌≡◌, ◌+◌, length, min};
ghost use Rattle.key_lines.specs.Lines.{columns_bytes, line, LinePut};

use crate::Column;
use crate::columns::{put_field, width};
use layout::fields::inside;
use layout_put::{put_bytes, put_u8};

// How many bytes a line with these columns has, or usize::MAX where that is larger.
fn line_length(columns: &[Column]) -> usize
    ensures { result ≡ min (5 + length (columns_bytes columns.now)) usize.MAX }
{
    let mut n: usize = 5;
    for column in columns {
        n = n.saturating_add(width(*column));
    }
    n
}

// Puts the line where it fits wholly, and answers how many bytes were put.
pub fn put_line(out: &mut [u8], at: usize, word: &[u8; 4], columns: &[Column]) -> usize
    ensures { LinePut out.old at (line word.now columns.now) out.new result }
{
    let n = line_length(columns);
    if !inside(out.len(), at, n) {
        return 0;
    }
    put_bytes(out, at, word);
    let mut end = at + word.len();
    for column in columns {
        end += put_field(out, end, *column);
    }
    put_u8(out, end, b'\n');
    n
}
