// A u64 put into a lent record, big-endian as in the file.
ghost use Rattle.std.specs.Prelude.{◌≡◌, ◌+◌, ◌<◌, ◌^◌};
ghost use Rattle.c_opened.specs.KeptReader.{put_long};

use layout_put::put_u32;

pub fn put_long(buf: &mut [u8], at: usize, x: u64)
    requires { at + 8 < 2 ^ 64 }
    ensures { buf.new ≡ put_long buf.old at x }
{
    put_u32(buf, at, (x / 4294967296) as u32);
    put_u32(buf, at + 4, (x % 4294967296) as u32);
}
