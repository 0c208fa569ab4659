// What each kind of line says.
ghost use Rattle.std.specs.Prelude.{◌≡◌, ◌≤◌};
ghost use Rattle.writer.specs.Loading.{mode_of};
ghost use Rattle.script_lines.specs.Lines.{number_at, says_number, signed_at, says_signed, begin_line, says_begin, cue_named, cue_said, says_named, says_cue, push_line, says_push, lent_line, says_lent};

use crate::kinds::Kind;
use script_words::numbers::{signed, unsigned};
use script_words::text::word;
use writer::{Cue, CueKind, Looping};

// A line that doesn't say what it must is answered too: 0 stands for each word that is no decimal within its range. Whether a line says all is asked apart.

#[derive(Clone, Copy)]
pub struct BeginLine {
    pub channels: usize,
    pub mode: Looping,
}

#[derive(Clone, Copy)]
pub struct PushLine {
    pub channels: u64,
    pub last: bool,
}

// A word as a decimal of at most max.
pub fn number_at(line: &[u8], i: usize, max: u64) -> u64
    ensures { (result ≡ number_at line.now i max) × (result ≤ max) }
{
    unsigned(word(line, i), max).unwrap_or(0)
}

pub fn says_number(line: &[u8], i: usize, max: u64) -> bool
    ensures { result ≡ says_number line.now i max }
{
    unsigned(word(line, i), max).is_some()
}

// A word as a decimal of -32,768 to 32,767.
pub fn signed_at(line: &[u8], i: usize) -> i16
    ensures { result ≡ signed_at line.now i }
{
    signed(word(line, i)).unwrap_or(0)
}

pub fn says_signed(line: &[u8], i: usize) -> bool
    ensures { result ≡ says_signed line.now i }
{
    signed(word(line, i)).is_some()
}

fn mode_of(n: u64) -> Looping
    ensures { result ≡ mode_of n }
{
    match n {
        0 => Looping::Disabled,
        1 => Looping::Enabled,
        _ => Looping::Auto,
    }
}

// BEGN channels mode
pub fn begin_line(line: &[u8]) -> BeginLine
    ensures { result ≡ begin_line line.now }
{
    BeginLine {
        channels: number_at(line, 1, u64::MAX) as usize,
        mode: mode_of(number_at(line, 2, 2)),
    }
}

pub fn says_begin(line: &[u8]) -> bool
    ensures { result ≡ says_begin line.now }
{
    says_number(line, 1, u64::MAX) && says_number(line, 2, 2)
}

fn cue_named(line: &[u8], kind: CueKind, name: usize) -> Cue
    ensures { result ≡ cue_named line.now kind name }
{
    Cue {
        start: number_at(line, 1, u64::MAX),
        kind,
        name: number_at(line, name, u32::MAX as u64) as u32,
    }
}

// CUEP start name, LOOP start name or CUER start length name.
pub fn cue_line(line: &[u8], kind: Kind) -> Cue
    ensures { result ≡ cue_said line.now kind }
{
    match kind {
        Kind::Range => {
            let length = number_at(line, 2, u64::MAX);
            cue_named(line, CueKind::Range(length), 3)
        }
        Kind::Loop => cue_named(line, CueKind::Loop, 2),
        _ => cue_named(line, CueKind::Point, 2),
    }
}

fn says_named(line: &[u8], name: usize) -> bool
    ensures { result ≡ says_named line.now name }
{
    says_number(line, 1, u64::MAX) && says_number(line, name, u32::MAX as u64)
}

pub fn says_cue(line: &[u8], kind: Kind) -> bool
    ensures { result ≡ says_cue line.now kind }
{
    match kind {
        Kind::Range => says_named(line, 3) && says_number(line, 2, u64::MAX),
        _ => says_named(line, 2),
    }
}

// PUSH channels last
pub fn push_line(line: &[u8]) -> PushLine
    ensures { result ≡ push_line line.now }
{
    PushLine {
        channels: number_at(line, 1, u64::MAX),
        last: number_at(line, 2, 1) == 1,
    }
}

pub fn says_push(line: &[u8]) -> bool
    ensures { result ≡ says_push line.now }
{
    says_number(line, 1, u64::MAX) && says_number(line, 2, 1)
}

// LENT n
pub fn lent_line(line: &[u8]) -> u64
    ensures { result ≡ lent_line line.now }
{
    number_at(line, 1, u64::MAX)
}

pub fn says_lent(line: &[u8]) -> bool
    ensures { result ≡ says_lent line.now }
{
    says_number(line, 1, u64::MAX)
}
