// The calls for programs in C and Rust: numbers and byte slices go in and out, and a record is kept in bytes that the caller lends (link/include/hps.h).
#![tactic(auto)]

pub mod loading; // loading.rt: the loading calls and the estimate
pub mod reading; // reading.rt: the reading calls and the listing

// A reading call has come to the end.
pub const END: u32 = c_opened::END;
// The lent bytes are no record.
pub const NO_RECORD: u32 = c_opened::NO_RECORD;
// A looping mode or a kind of cue that there is not.
pub const NO_KIND: u32 = c_opened::NO_KIND;
// The bytes lent for a record or a cursor are too few for it.
pub const NO_ROOM: u32 = c_opened::NO_ROOM;
// A side of a channel of the push has too few bytes.
pub const NO_SIDE: u32 = c_opened::NO_SIDE;
