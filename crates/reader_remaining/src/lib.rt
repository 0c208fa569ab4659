// Addresses remaining (document 01, "Opening and reading").
#![tactic(auto)]

ghost use Rattle.std.specs.Prelude.{◌≡◌};
ghost use Rattle.reader.specs.OpeningAndReading.{Readable, data_remaining};
ghost use Rattle.reader_remaining.specs.RemainingAnswers.{remaining_says};

use layout::refusal::Refusal;
use layout_read::block::read_header;
use reader::HpsReader;

// The sum of lengths over the blocks from a position on.
pub fn data_remaining(s: &[u8], r: HpsReader, position: usize) -> Result<u64, Refusal>
    requires { Readable r }
    ensures { remaining_says result ≡ data_remaining s.now r position }
{
    let offsets = &r.offsets[position.min(r.blocks)..r.blocks];
    let mut sum = 0;
    for offset in offsets {
        let header = read_header(s, *offset)?;
        sum += u64::from(header.end_address) + 1;
    }
    Ok(sum)
}
