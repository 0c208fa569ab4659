// What a push says of a channel, and a cue of the table, in bytes.
#![tactic(auto)]

pub mod loader; // loader.rt: the writer's record in bytes
pub mod places; // places.rt: where the fields of the writer's record lie

ghost use Rattle.std.specs.Prelude.{◌≡◌, ◌<◌, ◌≤◌};
ghost use Rattle.layout.specs.Refusals.{cue_limit};
ghost use Rattle.c_record.specs.KeptSides.{signed_from, side_in, sides_short, where_kind, kind_of, cue_in, table_in};

use crate::places::{CUE_SIZE, SIDE_SIZE};
use c_opened::failure::Failure;
use layout::FrameContext;
use layout::limits::CUE_LIMIT;
use layout_number_or_zero::{half, long, signed, word};
use writer::{ChannelBlock, Cue, CueKind, Setup, Stream};

// The writer's record but its table, which stands after the rest in its bytes: of the table how many cues it holds.
#[derive(Clone, Copy)]
pub struct Fields {
    pub setup: Setup,
    pub count: usize,
    pub stream: Stream,
    pub finished: bool,
}

fn coefficients_in(s: &[u8], at: usize) -> [i16; 16]
    requires { at < 65536 }
    ensures { result ≡ signed_from s.now at 16 }
{
    let mut coefficients = [0i16; 16];
    for (i, coefficient) in coefficients.iter_mut().enumerate() {
        *coefficient = signed(s, at + 2 * i);
    }
    coefficients
}

#[tactic(auto, unfolding(crate::specs::KeptSides::side_in))]
pub fn side_in(s: &[u8], at: usize) -> ChannelBlock
    requires { at < 4096 }
    ensures { (result ≡ side_in s.now at) × (result.length < 4294967296) }
{
    let coefficients = coefficients_in(s, at + 8);
    let context = FrameContext {
        predictor_and_scale: half(s, at + 42),
        last: signed(s, at + 44),
        oldest: signed(s, at + 46),
    };
    ChannelBlock {
        rate: word(s, at),
        length: word(s, at + 4) as usize,
        coefficients,
        gain: half(s, at + 40),
        context,
    }
}

// Whether a side of a channel of the push has too few bytes. In mono the right side counts for nothing.
#[tactic(auto, unfolding(crate::specs::KeptSides::sides_short))]
pub fn sides_short(channels: usize, left: &[u8], right: &[u8]) -> bool
    ensures { result ≡ sides_short channels left.now right.now }
{
    left.len() < SIDE_SIZE || (channels == 2 && right.len() < SIDE_SIZE)
}

// 0 a point, 1 a loop, any other number a range.
#[tactic(auto, unfolding(crate::specs::KeptSides::kind_of))]
pub fn kind_of(number: u32, range: u64) -> CueKind
    ensures { result ≡ kind_of number range }
{
    match number {
        0 => CueKind::Point,
        1 => CueKind::Loop,
        _ => CueKind::Range(range),
    }
}

// The same, of 0, 1 and 2 alone.
pub fn kind_in(number: u32, range: u64) -> Result<CueKind, Failure>
    ensures { result ≡ where_kind number (kind_of number range) }
{
    if number > 2 {
        return Err(Failure::NoKind);
    }
    Ok(kind_of(number, range))
}

#[tactic(auto, unfolding(crate::specs::KeptSides::cue_in, crate::specs::KeptSides::kind_of))]
fn cue_in(s: &[u8], at: usize) -> Cue
    requires { at < 20000 }
    ensures { result ≡ cue_in s.now at }
{
    let kind = kind_of(word(s, at + 16), long(s, at + 8));
    Cue {
        start: long(s, at),
        kind,
        name: word(s, at + 20),
    }
}

// The table of n cues from a place on, in a table of zeros.
pub fn cues_in(s: &[u8], at: usize, n: usize) -> [Cue; CUE_LIMIT]
    requires { (at < 1000) × (n ≤ cue_limit) }
    ensures { result ≡ table_in s.now at n }
{
    let none = Cue {
        start: 0,
        kind: CueKind::Point,
        name: 0,
    };
    let mut cues = [none; CUE_LIMIT];
    for (i, cue) in cues[..n].iter_mut().enumerate() {
        *cue = cue_in(s, at + CUE_SIZE * i);
    }
    cues
}
