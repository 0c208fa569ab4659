// Samples as bytes, 16 bits little-endian.
#![tactic(auto)]

ghost use Rattle.std.specs.Prelude.{◌+◌, ◌*◌, ◌/◌, min, ◌≡◌, ◌++◌, length, take, drop};
ghost use Rattle.std.specs.Int.{w16};
ghost use Rattle.std.proofs.Common.{to_z};
ghost use Rattle.pcm_bytes.specs.Pcm.{pcm_bytes, pcm_samples, PcmBack};

// As many samples as there is room for, from the first on, put from the first byte on; how many.
pub fn put_pcm(samples: &[i16], out: &mut [u8]) -> usize
    ensures value { result ≡ min (length samples.now) (length out.old / 2) }
    ensures out_after { out.new ≡ pcm_bytes (take result samples.now) ++ drop (2 * result) out.old }
{
    let n = samples.len().min(out.len() / 2);
    for (i, x) in samples[..n].iter().enumerate() {
        out[2 * i..2 * i + 2].copy_from_slice(&x.to_le_bytes());
    }
    n
}

// As many samples as the bytes have and there is room for, got from the first byte on into the first places; how many.
pub fn get_pcm(bytes: &[u8], samples: &mut [i16]) -> usize
    ensures value { result ≡ min (length samples.old) (length bytes.now / 2) }
    ensures samples_after { samples.new ≡ take result (pcm_samples bytes.now) ++ drop result samples.old }
{
    let count = samples.len().min(bytes.len() / 2);
    for (i, x) in samples[..count].iter_mut().enumerate() {
        *x = i16::from_le_bytes([bytes[2 * i], bytes[2 * i + 1]]);
    }
    count
}

// Samples come back from their bytes.
pub fn pcm_back()
    ensures { PcmBack }
{}
