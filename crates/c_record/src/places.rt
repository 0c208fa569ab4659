// Where the fields of the writer's record lie in its bytes.
use layout::limits::CUE_LIMIT;

pub const SLOT_AT: usize = 0;

pub const CHANNELS_AT: usize = 8;

pub const COUNT_AT: usize = 16;

pub const NEXT_AT: usize = 24;

pub const BASE_AT: usize = 32;

pub const OFFSET_AT: usize = 40;

pub const BLOCKS_AT: usize = 48;

pub const SUM_AT: usize = 56;

pub const LOOP_AT: usize = 64;

pub const MODE_AT: usize = 72;

pub const ID_AT: usize = 76;

pub const LAST_AT: usize = 80;

pub const FINISHED_AT: usize = 84;

pub const LEFT_AT: usize = 88;

// A side: rate, length, 16 coefficients, gain, context.
pub const SIDE_SIZE: usize = 48;

pub const RIGHT_AT: usize = LEFT_AT + SIDE_SIZE;

pub const CUES_AT: usize = RIGHT_AT + SIDE_SIZE;

// A cue: start, range length, kind, name.
pub const CUE_SIZE: usize = 24;

pub const LOADER_SIZE: usize = CUES_AT + CUE_SIZE * CUE_LIMIT;
