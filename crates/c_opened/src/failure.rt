// Why a call on lent bytes gives nothing: it is refused, has come to the end, or was lent what it cannot use.
ghost use Rattle.std.specs.Prelude.{◌≡◌};
ghost use Rattle.c_opened.specs.Failures.{failure_number};
ghost use Rattle.c_opened.specs.declared.failure.Failure.TheVariants.{Refused};

use crate::{END, NO_KIND, NO_RECORD, NO_ROOM, NO_SIDE};
use layout::refusal::Refusal;

#[derive(Clone, Copy, Debug, PartialEq, Eq)]
pub enum Failure {
    // By document 01 or 02.
    Refused(Refusal),
    // A reading call has come to the end.
    End,
    // The lent bytes are no record.
    NoRecord,
    // A looping mode or a kind of cue that there is not.
    NoKind,
    // The bytes lent for a record or a cursor are too few for it.
    NoRoom,
    // A side of a channel of the push has too few bytes.
    NoSide,
}

impl From<Failure> for u32 {
    ghost from_gives = { λ failure number. number ≡ failure_number failure };

    fn from(failure: Failure) -> u32 {
        match failure {
            Failure::Refused(reason) => u32::from(reason),
            Failure::End => END,
            Failure::NoRecord => NO_RECORD,
            Failure::NoKind => NO_KIND,
            Failure::NoRoom => NO_ROOM,
            Failure::NoSide => NO_SIDE,
        }
    }
}

impl From<Refusal> for Failure {
    ghost from_gives = { λ refusal failure. failure ≡ Refused refusal };

    fn from(refusal: Refusal) -> Failure {
        Failure::Refused(refusal)
    }
}
