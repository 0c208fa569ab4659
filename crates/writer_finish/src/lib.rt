// The finish call (document 01, "Loading"): the file header, handed out as three writes.
#![tactic(auto)]

ghost use Rattle.std.specs.Prelude.{◌≡◌, ◌++◌, ◌≤◌, ◌<◌, ◌%◌, length, drop};
ghost use Rattle.writer.specs.Loading.{finish_refusal, filled, second, header_for, header_writes};
ghost use Rattle.writer.specs.WritesAndCuttingRule.{handed};
ghost use Rattle.writer.specs.Calls.{Good, finish_of, called, called_says};
ghost use Rattle.layout.specs.Answers.{due_number};
ghost use Rattle.layout.specs.Records.{file_header_size};

use layout::limits::FILE_HEADER_SIZE;
use layout::refusal::Refusal;
use layout::{Channel, DspFormat, no_channel};
use layout_put::put_bytes;
use layout_put_header::put_file_header;
use writer::{Called, ChannelBlock, HpsWriter, Place, Writes};

// The header's writes.
const START: Place = Place {
    offset: 0,
    length: 15,
};

const REST: Place = Place {
    offset: 16,
    length: 112,
};

const MARK: Place = Place {
    offset: 15,
    length: 1,
};

// Why finish is refused, if it is.
#[tactic(auto, unfolding(layout::specs::Refusals::first_due))]
fn finish_due(finished: bool, blocks: usize, last: bool, lent: usize) -> Result<(), Refusal>
    ensures { due_number result ≡ finish_refusal finished blocks last lent }
{
    if finished {
        return Err(Refusal::AfterLast);
    }
    if blocks == 0 {
        return Err(Refusal::NoBlock);
    }
    if !last {
        return Err(Refusal::NotLast);
    }
    if lent < FILE_HEADER_SIZE {
        return Err(Refusal::LentTooShort);
    }
    Ok(())
}

// A channel in use: the end address is that of the whole stream, the rest the first block's.
fn filled(sum: u64, first: ChannelBlock) -> Channel
    requires { (0 < sum) × (sum ≤ 4294967296) }
    ensures { result ≡ filled sum first }
{
    let coefficients = first.coefficients;
    Channel {
        looping: true,
        format: DspFormat::Adpcm,
        loop_address: 2,
        end_address: (sum - 1) as u32,
        current_address: 2,
        coefficients,
        gain: first.gain,
        context: first.context,
    }
}

fn second(channels: usize, sum: u64, first: ChannelBlock) -> Channel
    requires { (0 < sum) × (sum ≤ 4294967296) }
    ensures { result ≡ second channels sum first }
{
    if channels == 2 {
        return filled(sum, first);
    }
    no_channel()
}

// The low 32 bits: a field of the header holds no more.
fn low_bits(n: usize) -> u32
    ensures { result ≡ n % 4294967296 }
{
    (n % 4294967296) as u32
}

// The file header of a stream with these first blocks.
fn header(
    channels: usize,
    sum: u64,
    left: ChannelBlock,
    right: ChannelBlock,
) -> [u8; FILE_HEADER_SIZE]
    requires { (0 < sum) × (sum ≤ 4294967296) }
    ensures { result ≡ header_for channels sum left right }
{
    let l = filled(sum, left);
    let r = second(channels, sum, right);
    let mut bytes = [0u8; FILE_HEADER_SIZE];
    put_file_header(&mut bytes, left.rate, low_bits(channels), l, r);
    bytes
}

// The header's bytes in the order of the writes: 0-14, 16-127, 15.
fn hand_out(header: &[u8], lent: &mut [u8])
    requires { (length header.now ≡ file_header_size) × (file_header_size ≤ length lent.old) }
    ensures { lent.new ≡ handed (header_writes header.now) ++ drop file_header_size lent.old }
{
    put_bytes(lent, 0, &header[..15]);
    put_bytes(lent, 15, &header[16..FILE_HEADER_SIZE]);
    put_bytes(lent, 127, &header[15..16]);
}

// Finish: byte 15 comes last, so that the header counts only once it is whole.
pub fn finish(w: HpsWriter, lent: &mut [u8]) -> Called
    requires { Good w }
    ensures value { called_says result ≡ called (finish_of w lent.old) }
    ensures lent_after { lent.new ≡ (finish_of w lent.old).lent }
    ensures good { Good result.writer }
{
    let stream = w.stream;
    if let Err(refusal) = finish_due(w.finished, stream.blocks, stream.last, lent.len()) {
        return Called {
            answer: Err(refusal),
            writer: w,
        };
    }
    let bytes = header(w.setup.channels, stream.sum, stream.left, stream.right);
    hand_out(&bytes, lent);
    Called {
        answer: Ok(Writes::Three(stream.offset, START, REST, MARK)),
        writer: HpsWriter {
            finished: true,
            ..w
        },
    }
}
