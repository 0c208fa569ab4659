// The listing of a slot, as `key` prints it (document 01, "Marking key and estimate").
#![tactic(auto)]

use reader::CueIterator;

pub mod listing; // listing.rt: line by line, as many lines as fit
pub mod start; // start.rt: where the listing starts

// Where the listing stands: what is printed next. Cues has how many cue calls may still be made.
#[derive(Clone, Copy)]
pub enum Stage {
    Stop(u32),
    Head,
    Blocks(usize),
    Cues(usize, CueIterator),
    Done,
}
