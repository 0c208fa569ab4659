// The magic of the file header, read and compared.
ghost use Rattle.std.specs.Prelude.{◌≡◌};
ghost use Rattle.layout.specs.Records.{read_magic};
ghost use Rattle.layout_read.specs.MagicAnswer.{magic_says};

use layout::MAGIC;
use layout::refusal::Refusal;

pub fn read_magic(s: &[u8]) -> Result<(), Refusal>
    ensures { magic_says result ≡ read_magic s.now }
{
    if s.len() < MAGIC.len() {
        return Err(Refusal::SlotEndsEarly);
    }
    if s.starts_with(&MAGIC) {
        Ok(())
    } else {
        Err(Refusal::WrongMagic)
    }
}
