// Bytes and big-endian fields, put into a lent buffer at an offset: where they do not fit wholly, nothing is changed.
#![tactic(auto)]

ghost use Rattle.std.specs.Prelude.{◌≡◌, [], ◌∷◌, ◌++◌, replicate};
ghost use Rattle.layout.specs.Records.{be16, be32, be_z16, context_bytes};
ghost use Rattle.layout.specs.Puts.{put_at};

use layout::FrameContext;
use layout::fields::inside;

#[tactic(auto, unfolding(layout::specs::Puts::put_at))]
pub fn put_bytes(buf: &mut [u8], at: usize, src: &[u8])
    ensures { buf.new ≡ put_at buf.old at src.now }
{
    if inside(buf.len(), at, src.len()) {
        for (j, byte) in src.iter().enumerate() {
            buf[at + j] = *byte;
        }
    }
}

// A byte, n times.
#[tactic(auto, unfolding(layout::specs::Puts::put_at))]
pub fn put_fill(buf: &mut [u8], at: usize, n: usize, byte: u8)
    ensures { buf.new ≡ put_at buf.old at (replicate n byte) }
{
    if inside(buf.len(), at, n) {
        buf[at..at + n].fill(byte);
    }
}

#[tactic(auto, unfolding(layout::specs::Puts::put_at))]
pub fn put_u8(buf: &mut [u8], at: usize, x: u8)
    ensures { buf.new ≡ put_at buf.old at (x ∷ []) }
{
    if at < buf.len() {
        buf[at] = x;
    }
}

#[tactic(auto, unfolding(layout::specs::Records::be16))]
pub fn put_u16(buf: &mut [u8], at: usize, x: u16)
    ensures { buf.new ≡ put_at buf.old at (be16 x) }
{
    put_bytes(buf, at, &x.to_be_bytes());
}

#[tactic(auto, unfolding(layout::specs::Records::be32))]
pub fn put_u32(buf: &mut [u8], at: usize, word: u32)
    ensures { buf.new ≡ put_at buf.old at (be32 word) }
{
    put_bytes(buf, at, &word.to_be_bytes());
}

// Three numbers of 32 bits.
pub fn put_words(buf: &mut [u8], at: usize, a: u32, b: u32, c: u32)
    ensures { buf.new ≡ put_at buf.old at (be32 a ++ be32 b ++ be32 c) }
{
    let words = [a.to_be_bytes(), b.to_be_bytes(), c.to_be_bytes()];
    put_bytes(buf, at, words.as_flattened());
}

#[tactic(auto, unfolding(layout::specs::Records::be16, layout::specs::Records::be_z16))]
pub fn put_i16(buf: &mut [u8], at: usize, z: i16)
    ensures { buf.new ≡ put_at buf.old at (be_z16 z) }
{
    put_bytes(buf, at, &z.to_be_bytes());
}

// A context, 6 bytes.
#[tactic(auto, unfolding(layout::specs::Records::be16, layout::specs::Records::be_z16, layout::specs::Records::context_bytes))]
pub fn put_context(buf: &mut [u8], at: usize, c: FrameContext)
    ensures { buf.new ≡ put_at buf.old at (context_bytes c) }
{
    let fields = [
        c.predictor_and_scale.to_be_bytes(),
        c.last.to_be_bytes(),
        c.oldest.to_be_bytes(),
    ];
    put_bytes(buf, at, fields.as_flattened());
}
