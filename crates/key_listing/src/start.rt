// The listing of a slot from its start.
ghost use Rattle.std.specs.Prelude.{◌≡◌};
ghost use Rattle.reader.specs.OpeningAndReading.{Readable};
ghost use Rattle.key_listing.specs.MarkingKey.{listing_lines, lines_from};

use crate::Stage;
use layout::limits::KEY_LIMIT;
use layout::refusal::Refusal;
use reader::{HpsReader, no_reader};
use reader_open::open;

#[derive(Clone, Copy)]
pub struct Listing {
    pub stage: Stage,
    pub reader: HpsReader,
}

// A slot that is longer than what is listed is opened too; 7 stands for what it opens to.
pub fn start_listing(s: &[u8]) -> Listing
    ensures stage_value { lines_from s.now result.reader result.stage ≡ listing_lines s.now }
    ensures readable { Readable result.reader }
{
    let opened = open(s);
    if s.len() > KEY_LIMIT {
        return Listing {
            stage: Stage::Stop(Refusal::WrongSlotLength.into()),
            reader: opened.unwrap_or(no_reader()),
        };
    }
    match opened {
        Ok(reader) => Listing {
            stage: Stage::Head,
            reader,
        },
        Err(refusal) => Listing {
            stage: Stage::Stop(refusal.into()),
            reader: no_reader(),
        },
    }
}
