// The marks of the frames: free, or a decoder's.
ghost use Rattle.std.specs.Prelude.{◌≡◌};
ghost use Rattle.frame_pool.specs.FramePool.{frame_count, count_marked, highest_free, has_mark};
ghost use Rattle.frame_pool.specs.MarkBytes.{mark_byte};

use crate::{DecoderId, FRAMES, Mark};

// A mark in one byte: a mark itself takes two.
fn byte_of(mark: Mark) -> u8
    ensures { result ≡ mark_byte mark }
{
    match mark {
        None => 0,
        Some(DecoderId::A) => 1,
        Some(DecoderId::B) => 2,
    }
}

// How many frames have this mark. Compared by their bytes, all sixteen are so at once; as marks, one after the other.
pub(crate) fn count(marks: &[Mark; FRAMES], mark: Mark) -> usize
    ensures { result ≡ count_marked frame_count mark marks.now }
{
    let byte = byte_of(mark);
    let mut n = 0;
    for i in 0..FRAMES {
        if byte_of(marks[i]) == byte {
            n += 1;
        }
    }
    n
}

// The highest-numbered free frame, 0 where none is free.
pub(crate) fn highest_free(marks: &[Mark; FRAMES]) -> usize
    ensures { result ≡ highest_free frame_count marks.now }
{
    marks.iter().rposition(|m| m.is_none()).unwrap_or(0)
}

// Whether there is such a frame, with this mark.
#[tactic(auto, using(crate::proofs::PoolLaws::mark_inside, crate::proofs::PoolLaws::mark_outside))]
pub(crate) fn holds(marks: &[Mark; FRAMES], mark: Mark, frame: usize) -> bool
    ensures { result ≡ has_mark marks.now mark frame }
{
    frame < FRAMES && marks[frame] == mark
}
