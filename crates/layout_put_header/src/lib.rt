// The file header and its channels as they are written, put into a lent buffer: where a record does not fit wholly, nothing is changed.
#![tactic(auto)]

ghost use Rattle.std.specs.Prelude.{◌≡◌};
ghost use mathlib.Core.List.{◌++◌, flat_map};
ghost use Rattle.layout.specs.Records.{be32, be_z16, channel_bytes, file_header_bytes, magic};
ghost use Rattle.layout.specs.Puts.{put_at};

use layout::fields::inside;
use layout::limits::{CHANNEL_SIZE, FILE_HEADER_SIZE};
use layout::{Channel, MAGIC};
use layout_put::{put_bytes, put_context, put_i16, put_u16, put_u32, put_words};

pub fn put_coefficients(buf: &mut [u8], at: usize, coefficients: [i16; 16])
    ensures { buf.new ≡ put_at buf.old at (flat_map be_z16 coefficients) }
{
    if inside(buf.len(), at, 32) {
        for (i, x) in coefficients.iter().enumerate() {
            put_i16(buf, at + 2 * i, *x);
        }
    }
}

fn put_channel(buf: &mut [u8], at: usize, c: Channel)
    ensures { buf.new ≡ put_at buf.old at (channel_bytes c) }
{
    if inside(buf.len(), at, CHANNEL_SIZE) {
        put_u16(buf, at, u16::from(c.looping));
        put_u16(buf, at + 2, u16::from(c.format));
        put_words(
            buf,
            at + 4,
            c.loop_address,
            c.end_address,
            c.current_address,
        );
        put_coefficients(buf, at + 16, c.coefficients);
        put_u16(buf, at + 48, c.gain);
        put_context(buf, at + 50, c.context);
    }
}

// The magic, the rate and the channel count.
fn put_magic(buf: &mut [u8], rate: u32, count: u32)
    ensures { buf.new ≡ put_at buf.old 0 (magic ++ be32 rate ++ be32 count) }
{
    if inside(buf.len(), 0, 16) {
        put_bytes(buf, 0, &MAGIC);
        put_u32(buf, 8, rate);
        put_u32(buf, 12, count);
    }
}

// The file header, from the buffer's start.
pub fn put_file_header(buf: &mut [u8], rate: u32, count: u32, left: Channel, right: Channel)
    ensures { buf.new ≡ put_at buf.old 0 (file_header_bytes rate count left right) }
{
    if inside(buf.len(), 0, FILE_HEADER_SIZE) {
        put_magic(buf, rate, count);
        put_channel(buf, 16, left);
        put_channel(buf, 72, right);
    }
}
