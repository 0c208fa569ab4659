// What kind a line is.
ghost use Rattle.std.specs.Prelude.{◌≡◌};
ghost use Rattle.script_lines.specs.Lines.{with_words, name_said, line_kind};

use script_words::text::{word, word_count};

// The first words, as big-endian numbers of their four letters; written out, since a constant calls no from_be_bytes, and a match on the letters would test them
// one by one, with a path for each word's part.
const BEGN: u32 = 0x4245474e;

const CUEP: u32 = 0x43554550;

const LOOP: u32 = 0x4c4f4f50;

const CUER: u32 = 0x43554552;

const PUSH: u32 = 0x50555348;

const CHAN: u32 = 0x4348414e;

const FINI: u32 = 0x46494e49;

const LENT: u32 = 0x4c454e54;

// What a line's first word says it is; nothing is a line with no word.
#[derive(Clone, Copy, PartialEq, Eq)]
pub enum Kind {
    Nothing,
    Begin,
    Point,
    Loop,
    Range,
    Push,
    Channel,
    Finish,
    Lent,
    Unknown,
}

// A line with a word missing or one too many is unknown.
fn with_words(kind: Kind, count: usize, due: usize) -> Kind
    ensures { result ≡ with_words kind count due }
{
    if count == due { kind } else { Kind::Unknown }
}

// The kind that a first word of four letters names, in a line of so many words.
fn named(letters: u32, count: usize) -> Kind
    ensures { result ≡ name_said letters count }
{
    match letters {
        BEGN => with_words(Kind::Begin, count, 3),
        CUEP => with_words(Kind::Point, count, 3),
        LOOP => with_words(Kind::Loop, count, 3),
        CUER => with_words(Kind::Range, count, 4),
        PUSH => with_words(Kind::Push, count, 3),
        CHAN => with_words(Kind::Channel, count, 24),
        FINI => with_words(Kind::Finish, count, 1),
        LENT => with_words(Kind::Lent, count, 2),
        _ => Kind::Unknown,
    }
}

pub fn kind_of(line: &[u8]) -> Kind
    ensures { result ≡ line_kind line.now }
{
    let count = word_count(line);
    if count == 0 {
        return Kind::Nothing;
    }
    let name = word(line, 0);
    if name.len() != 4 {
        return Kind::Unknown;
    }
    named(layout_number_or_zero::word(name, 0), count)
}
