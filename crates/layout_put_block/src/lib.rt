// A block as it is written: its header, and after it filler and padded data, put into a lent buffer from an offset on. What does not fit
// wholly changes nothing.
#![tactic(auto)]

ghost use Rattle.std.specs.Prelude.{◌≡◌};
ghost use mathlib.Core.List.{[], ◌∷◌, ◌++◌, flat_map};
ghost use Rattle.layout.specs.Records.{context_bytes, cue_bytes, fillers, padded};
ghost use Rattle.layout.specs.Puts.{put_at};
ghost use Rattle.layout_put_block.specs.HeaderPut.{header_put};

use layout::fields::inside;
use layout::limits::{ALIGNMENT, BLOCK_HEADER_SIZE, CUE_POINT_SIZE};
use layout::{BlockHeader, FrameContext};
use layout_put::{put_bytes, put_context, put_fill, put_u16, put_words};

// A context with the 2 zero bytes that come after it in a block header.
fn put_block_context(buf: &mut [u8], at: usize, c: FrameContext)
    ensures { buf.new ≡ put_at buf.old at (context_bytes c ++ (0 ∷ 0 ∷ [])) }
{
    if inside(buf.len(), at, 8) {
        put_context(buf, at, c);
        put_u16(buf, at + 6, 0);
    }
}

// A block header; of the cue count the byte that it has.
pub fn put_header(buf: &mut [u8], at: usize, h: BlockHeader)
    ensures { buf.new ≡ put_at buf.old at (header_put h) }
{
    if inside(buf.len(), at, BLOCK_HEADER_SIZE) {
        put_words(buf, at, h.size, h.end_address, h.next_offset);
        put_block_context(buf, at + 12, h.left);
        put_block_context(buf, at + 20, h.right);
        put_bytes(buf, at + 28, &[(h.cues % 256) as u8, 0, 0, 0]);
    }
}

// The filler after n cues, up to a multiple of 4.
pub fn put_fillers(buf: &mut [u8], at: usize, n: usize)
    ensures { buf.new ≡ put_at buf.old at (flat_map cue_bytes (fillers n)) }
{
    let count = (4 - n % 4) % 4;
    let fillers: [[u8; CUE_POINT_SIZE]; 3] = [[255, 255, 255, 255, 0, 0, 0, 0]; 3];
    put_bytes(buf, at, fillers[..count].as_flattened());
}

pub fn put_padded(buf: &mut [u8], at: usize, bytes: &[u8])
    ensures { buf.new ≡ put_at buf.old at (padded bytes.now) }
{
    let pad = (ALIGNMENT - bytes.len() % ALIGNMENT) % ALIGNMENT;
    if inside(buf.len(), at, bytes.len() + pad) {
        put_bytes(buf, at, bytes);
        put_fill(buf, at + bytes.len(), pad, 0);
    }
}
