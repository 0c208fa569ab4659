// Big-endian fields, read at an offset of a slot: the value, or refused with 1 where the field is not wholly in the slot.
ghost use Rattle.std.specs.Prelude.{◌≡◌, ◌+◌, leb, length};
ghost use Rattle.layout.specs.Choice.{pick};
ghost use Rattle.layout.specs.Records.{field};
ghost use Rattle.layout.specs.Answers.{says};

use crate::number::Field;
use crate::refusal::Refusal;

// Whether n bytes from at on lie in a slot of this length.
pub fn inside(len: usize, at: usize, n: usize) -> bool
    ensures { result ≡ leb (at + n) len }
{
    n <= len && at <= len - n
}

// The field at an offset, where it is wholly in the slot.
fn field_at<T: Field>(s: &[u8], at: usize) -> Option<T>
    ensures { result ≡ pick (leb (at + T.SIZE) (length s.now)) (Some (T.value_at s.now at)) None }
{
    if inside(s.len(), at, T::SIZE) {
        Some(T::value_at(s, at))
    } else {
        None
    }
}

// The same, refused with 1 where it is not.
pub fn read<T: Field>(s: &[u8], at: usize) -> Result<T, Refusal>
    ensures { says result ≡ field s.now (at + T.SIZE) (T.value_at s.now at) }
{
    let Some(value) = field_at(s, at) else {
        return Err(Refusal::SlotEndsEarly);
    };
    Ok(value)
}
