// What a cue call gave, put into lent bytes.
ghost use Rattle.std.specs.Prelude.{◌≡◌, ◌+◌, ◌<◌, ◌^◌};
ghost use Rattle.reader_cues.specs.CueAnswers.{cue_says};
ghost use Rattle.c_cues.specs.CueBytes.{put_cue, answered, answer_put};

use c_opened::failure::Failure;
use c_opened::fields::put_long;
use layout::refusal::Refusal;
use layout_put::put_u32;
use reader_cues::ReadCue;

// A cue in 16 bytes: its start, 0 for a point or 1 for the loop, and its name.
// The kind by number: the C interface.
fn put_cue(out: &mut [u8], at: usize, start: u64, kind: u32, name: u32)
    requires { at + 16 < 2 ^ 64 }
    ensures { out.new ≡ put_cue out.old at start kind name }
{
    put_long(out, at, start);
    put_u32(out, at + 8, kind);
    put_u32(out, at + 12, name);
}

// The bytes of the cue that a call gave, if it gave one.
pub fn put_answer(
    answer: Result<Option<ReadCue>, Refusal>,
    out: &mut [u8],
    at: usize,
) -> Result<(), Failure>
    requires { at + 16 < 2 ^ 64 }
    ensures value { result ≡ answered answer }
    ensures out_after { out.new ≡ answer_put out.old at (cue_says answer) }
{
    match answer? {
        Some(ReadCue::Loop(start)) => put_cue(out, at, start, 1, 0),
        Some(ReadCue::Point(start, name)) => put_cue(out, at, start, 0, name),
        None => return Err(Failure::End),
    }
    Ok(())
}
