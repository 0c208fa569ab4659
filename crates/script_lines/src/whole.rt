// Whether a script is well formed: each line says what its kind must, BEGN is the first call and comes once, and PUSH is followed by a CHAN line for each of its
// channels. Lines with no word, and comments, may stand anywhere; LENT anywhere but among those.
ghost use Rattle.std.specs.Prelude.{◌≡◌, ◌<◌, IfSome};
ghost use Rattle.std.specs.Option.{unwrap_or};
ghost use Rattle.script_lines.specs.Whole.{says_all, after_call, after_channel, after_line, wrong_line};

use crate::channels::says_channel;
use crate::kinds::{Kind, kind_of};
use crate::lines::{push_line, says_begin, says_cue, says_lent, says_push};
use script_words::text::{line_at, next_line};

// What the lines so far ask of the next: whether BEGN was there, and how many CHAN lines are due.
#[derive(Clone, Copy)]
struct Due {
    begun: bool,
    channels: u64,
}

// Whether the words after the first are what the line's kind must have.
fn says_all(line: &[u8], kind: Kind) -> bool
    ensures { result ≡ says_all line.now kind }
{
    match kind {
        Kind::Nothing | Kind::Finish => true,
        Kind::Begin => says_begin(line),
        Kind::Point | Kind::Loop | Kind::Range => says_cue(line, kind),
        Kind::Push => says_push(line),
        Kind::Channel => says_channel(line),
        Kind::Lent => says_lent(line),
        Kind::Unknown => false,
    }
}

// What a line of this kind leaves due, where no CHAN is; none where it may not stand there.
fn after_call(line: &[u8], kind: Kind, begun: bool) -> Option<Due>
    ensures { result ≡ after_call line.now kind begun }
{
    match kind {
        Kind::Begin => (!begun).then_some(Due {
            begun: true,
            channels: 0,
        }),
        Kind::Push => begun.then_some(Due {
            begun,
            channels: push_line(line).channels,
        }),
        Kind::Lent => Some(Due { begun, channels: 0 }),
        Kind::Channel => None,
        _ => begun.then_some(Due { begun, channels: 0 }),
    }
}

// The same, where so many CHAN lines are due.
fn after_channel(kind: Kind, channels: u64) -> Option<Due>
    requires { 0 < channels }
    ensures { result ≡ after_channel kind channels }
{
    match kind {
        Kind::Channel => Some(Due {
            begun: true,
            channels: channels - 1,
        }),
        _ => None,
    }
}

fn after_line(line: &[u8], due: Due) -> Option<Due>
    ensures { result ≡ after_line line.now due }
{
    let kind = kind_of(line);
    if let Kind::Nothing = kind {
        return Some(due);
    }
    if !says_all(line, kind) {
        return None;
    }
    let channels = due.channels;
    if channels > 0 {
        return after_channel(kind, channels);
    }
    after_call(line, kind, due.begun)
}

// The number of the line where the script goes wrong. Where a line is missing at the end, that is the line after the last.
pub fn wrong_line(s: &[u8]) -> Option<usize>
    ensures value { unwrap_or result 0 ≡ wrong_line s.now }
    ensures some { IfSome result (λ n. 0 < n) }
{
    let mut due = Due {
        begun: false,
        channels: 0,
    };
    let mut number: usize = 1;
    let mut at: usize = 0;
    // A while: the next line starts where next_line says, which the definition goes by.
    while at < s.len() {
        let Some(after) = after_line(line_at(s, at), due) else {
            return Some(number);
        };
        due = after;
        at = next_line(s, at);
        number += 1;
    }
    if !due.begun {
        return Some(number);
    }
    if due.channels > 0 {
        return Some(number);
    }
    None
}
