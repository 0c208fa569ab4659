// The walk along the chain of blocks (document 01, "Opening and reading").
ghost use Rattle.std.specs.Prelude.{◌≡◌, [], ◌≤◌, length, slice_index, EachIndex, IfOk, position, eqb};
ghost use Rattle.layout.specs.Records.{first_block_offset};
ghost use Rattle.layout.specs.Answers.{says};
ghost use Rattle.reader.specs.OpeningAndReading.{walk_from};
ghost use Rattle.reader_open.specs.WalkAnswers.{walk_of, walked_over};

use layout::limits::END_BLOCK_OFFSET;
use layout::refusal::Refusal;
use layout_read::block::read_header;
use reader::FIRST_BLOCK_OFFSET;

#[derive(Clone, Copy)]
pub struct Walk {
    // The block that the last one goes on at.
    pub loop_start: Option<usize>,
    // How many blocks there are.
    pub count: usize,
}

// The first block at an offset. One above the highest is not looked for, which keeps the walk fast.
fn block_at(offsets: &[u32], highest: u32, offset: u32) -> Option<usize>
    requires { EachIndex offsets.now (λ k. slice_index offsets.now k ≤ highest) }
    ensures { result ≡ position (λ o. eqb o offset) offsets.now }
{
    if offset > highest {
        return None;
    }
    offsets.iter().position(|o| *o == offset)
}

// The walk, which leaves the offsets that it came past where it is refused. Its loop counts by hand: document 01 has it left by label with the index found.
fn walk_along(s: &[u8], offsets: &mut [u32]) -> Result<Walk, Refusal>
    ensures value { says result ≡ walk_of (walk_from (length offsets.old) s.now [] first_block_offset) }
    ensures offsets_after { IfOk result (λ w. offsets.new ≡ walked_over offsets.old (walk_from (length offsets.old) s.now [] first_block_offset)) }
{
    let mut current = FIRST_BLOCK_OFFSET;
    let mut highest = 0;
    let mut count = 0;
    let first = 'walk: loop {
        if count >= offsets.len() {
            return Err(Refusal::TooManyBlocks);
        }
        let header = read_header(s, current)?;
        offsets[count] = current;
        highest = current.max(highest);
        count += 1;
        let next = header.next_offset;
        if next == END_BLOCK_OFFSET {
            return Ok(Walk {
                loop_start: None,
                count,
            });
        }
        if let Some(i) = block_at(&offsets[..count], highest, next) {
            break 'walk i;
        }
        current = next;
    };
    Ok(Walk {
        loop_start: Some(first),
        count,
    })
}

// From the first block along the next offsets, until the end or a block already walked. Each block's offset is put into a lent place; a block for which
// there is none is one too many. A refused walk leaves zeros in all places.
pub fn walk_blocks(s: &[u8], offsets: &mut [u32]) -> Result<Walk, Refusal>
    ensures value { says result ≡ walk_of (walk_from (length offsets.old) s.now [] first_block_offset) }
    ensures offsets_after { offsets.new ≡ walked_over offsets.old (walk_from (length offsets.old) s.now [] first_block_offset) }
{
    let walk = walk_along(s, offsets);
    if walk.is_err() {
        offsets.fill(0);
    }
    walk
}
