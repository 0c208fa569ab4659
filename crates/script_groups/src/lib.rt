// Which lines of a script belong together: BEGN's and those after it, a PUSH's and its CHAN lines.
#![tactic(auto)]

ghost use Rattle.std.specs.Prelude.{◌≡◌, [], drop, get_or};
ghost use Rattle.script_words.specs.Texts.{line_of, lines_of};
ghost use Rattle.script_groups.specs.Order.{lent_by, sides_in, Said, Starts};

use script_lines::kinds::{Kind, kind_of};
use script_lines::lines::lent_line;
use script_words::text::{line_at, next_line, word_count};

// The start of the first line from here on that has a word, or the end.
fn said_from(s: &[u8], from: usize) -> usize
    ensures { Said s.now from result }
{
    let mut at = from;
    // A while: the answer is a place, and the next line starts where next_line says.
    while at < s.len() {
        if word_count(line_at(s, at)) != 0 {
            return at;
        }
        at = next_line(s, at);
    }
    at
}

// Where the CHAN lines of a push's two sides start; the end where there is none.
#[derive(Clone, Copy)]
pub struct Sides {
    pub left: usize,
    pub right: usize,
}

// The CHAN lines from here on of a push with so many channels. A third channel and later ones count for nothing.
pub fn sides_from(s: &[u8], from: usize, channels: u64) -> Sides
    ensures s_value { line_of (drop result.left s.now) ≡ get_or (sides_in channels (lines_of (drop from s.now))) 0 [] }
    ensures s_value_2 { line_of (drop result.right s.now) ≡ get_or (sides_in channels (lines_of (drop from s.now))) 1 [] }
{
    let none = s.len();
    if channels == 0 {
        return Sides {
            left: none,
            right: none,
        };
    }
    let left = said_from(s, from);
    if channels == 1 {
        return Sides { left, right: none };
    }
    let right = said_from(s, next_line(s, left));
    Sides { left, right }
}

// The lent buffer's length after a line: LENT sets it.
pub fn lent_after(line: &[u8], kind: Kind, lent: usize) -> usize
    ensures { result ≡ lent_by kind line.now lent }
{
    if let Kind::Lent = kind {
        return lent_line(line) as usize;
    }
    lent
}

// Where BEGN's line starts, and how long the lent buffer is then.
#[derive(Clone, Copy)]
pub struct Start {
    pub at: usize,
    pub lent: usize,
}

// BEGN's line; the end where there is none.
pub fn start_of(s: &[u8], lent: usize) -> Start
    ensures { Starts s.now lent result }
{
    let mut at: usize = 0;
    let mut length = lent;
    // A while: the answer has the line's place, and the next one starts where next_line says.
    while at < s.len() {
        let line = line_at(s, at);
        let kind = kind_of(line);
        if let Kind::Begin = kind {
            return Start { at, lent: length };
        }
        length = lent_after(line, kind, length);
        at = next_line(s, at);
    }
    Start { at, lent: length }
}
