// The opening record in lent bytes, as a program in C or Rust keeps it.
#![tactic(auto)]

pub mod failure; // failure.rt: why a call gives nothing, and its number
pub mod fields; // fields.rt: a u64 put into a lent record
pub mod opened; // opened.rt: the opening record in bytes
pub mod put; // put.rt: the opening record put into lent bytes

// A reading call has come to the end.
pub const END: u32 = 255;
// The lent bytes are no record.
pub const NO_RECORD: u32 = 254;
// A looping mode or a kind of cue that there is not.
pub const NO_KIND: u32 = 253;
// The bytes lent for a record or a cursor are too few for it.
pub const NO_ROOM: u32 = 252;
// A side of a channel of the push has too few bytes.
pub const NO_SIDE: u32 = 251;
