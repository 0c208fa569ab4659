// What holds of every opening, and of the reading calls on the unchanged slot.
#![tactic(auto)]

ghost use Rattle.reader_laws.specs.ReaderLaws.{OpeningLaws};

// Of an accepted opening: its blocks, channels and loop start, and that no call on the unchanged slot gives 1.
pub fn opening_laws()
    ensures { OpeningLaws }
{}
