// The limits and sizes of document 01, each once. specs/Refusals.antt and specs/Records.antt have them by the same names.

// 5 over 512 blocks; 25 512 blocks pushed
pub const BLOCK_LIMIT: usize = 512;

// 7 slot over 16,777,216 bytes
pub const SLOT_LIMIT: usize = 16_777_216;

// 7 or under 192 at begin
pub const SLOT_LEAST: usize = 192;

// 8 start over 2,147,483,647
pub const START_LIMIT: u64 = 2_147_483_647;

// 13 over 65,536 bytes (mono)
pub const MONO_LIMIT: usize = 65_536;

// 13 or 32,768 per channel (stereo)
pub const STEREO_LIMIT: usize = 32_768;

// The longest block: two addresses for each byte.
pub const LENGTH_LIMIT: usize = 2 * MONO_LIMIT;

// 20 table holds 128 cues
pub const CUE_LIMIT: usize = 128;

// The marking key reads a slot of at most 65,536 bytes.
pub const KEY_LIMIT: usize = 65_536;

// next offset 4,294,967,295: no block follows
pub const END_BLOCK_OFFSET: u32 = 4_294_967_295;

pub const FILE_HEADER_SIZE: usize = 128;

// Two channels of 56 bytes.
pub const CHANNEL_SIZE: usize = 56;

pub const BLOCK_HEADER_SIZE: usize = 32;

pub const CUE_POINT_SIZE: usize = 8;

// P(n) is a multiple of it.
pub const ALIGNMENT: usize = 32;
