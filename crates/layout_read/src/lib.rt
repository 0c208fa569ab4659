// The records of a file (document 01, "Records"), read at an offset of a slot.
#![tactic(auto)]

pub mod block; // block.rt: a block's header and cue points
pub mod channels; // channels.rt: a channel and its format
mod context; // context.rt: a context
pub mod file; // file.rt: the magic
