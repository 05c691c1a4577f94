// Bytes stored in an output, where they fit.
ghost use Rattle.std.specs.Prelude.{◌≡◌, ◌^◌, ◌<◌, set};
ghost use Rattle.bitstream.specs.Writer.{Stored};

// Stores the 32 lowest bits of `w` in four bytes, where all four fit.
pub fn store_word(out: &mut [u8], at: usize, w: u64)
    requires { at < 2 ^ 60 }
    ensures { Stored out.old out.new at w }
{
    if at + 4 <= out.len() {
        out[at..at + 4].copy_from_slice(&((w % 0x1_0000_0000) as u32).to_be_bytes());
    }
}

// Stores a byte where it fits.
pub fn store_byte(out: &mut [u8], at: usize, b: u8)
    ensures { out.new ≡ set out.old at b }
{
    if at < out.len() {
        out[at] = b;
    }
}
