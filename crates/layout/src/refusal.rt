// Why a call is refused, with the numbers of documents 01 and 02.
ghost use Rattle.std.specs.Prelude.{◌≡◌};
ghost use Rattle.layout.specs.Answers.{number_of};

#[derive(Clone, Copy, Debug, PartialEq, Eq)]
pub enum Refusal {
    // Because of the input.
    SlotEndsEarly = 1,
    WrongMagic = 2,
    WrongChannelCount = 3,
    UnknownFormat = 4,
    TooManyBlocks = 5,
    NoSuchChannel = 6,
    WrongSlotLength = 7,
    BadCue = 8,
    RateZero = 9,
    TooShort = 10,
    WrongDataLength = 11,
    LengthsDiffer = 12,
    TooLarge = 13,
    LentTooShort = 14,
    RatesDiffer = 15,

    // Because of the state.
    CueTableFull = 20,
    AlreadyPushed = 21,
    RateChanged = 22,
    CoefficientsChanged = 23,
    PastSlotEnd = 24,
    NoMoreBlocks = 25,
    AfterLast = 26,
    NoBlock = 27,
    NotLast = 28,
    OtherChannelCount = 29,

    // Of decoder, fader and frame pool.
    NotAdpcm = 30,
    LevelTooHigh = 31,
    NotServed = 32,
    NotHeld = 33,
}

impl From<Refusal> for u32 {
    ghost from_gives = { λ refusal number. number ≡ number_of refusal };

    fn from(refusal: Refusal) -> u32 {
        refusal as u32
    }
}
