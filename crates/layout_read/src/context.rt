// A context, 6 bytes, read at an offset of a slot.
ghost use Rattle.std.specs.Prelude.{◌≡◌, ◌+◌};
ghost use Rattle.layout.specs.Records.{field, context_at};
ghost use Rattle.layout.specs.Answers.{says};

use layout::FrameContext;
use layout::fields::read;
use layout::refusal::Refusal;

pub fn read_context(s: &[u8], at: usize) -> Result<FrameContext, Refusal>
    ensures { says result ≡ field s.now (at + 6) (context_at s.now at) }
{
    let predictor_and_scale = read(s, at)?;
    let last = read(s, at + 2)?;
    let oldest = read(s, at + 4)?;
    Ok(FrameContext {
        predictor_and_scale,
        last,
        oldest,
    })
}
