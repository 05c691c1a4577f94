// The end of a file: the fill behind the body up to a multiple of the output word, and nothing else.
ghost use Rattle.std.specs.Prelude.{◌≡◌, Bool, ◌+◌, ◌*◌, ◌^◌, ◌<◌, ◌≤◌, length, take, drop};
ghost use Rattle.bitstream.specs.Stream.{unpack, zeros};
ghost use Rattle.header.specs.Fields.{same};
ghost use Rattle.closing.specs.Ending.{end_of};

use bitstream::read::Bits;

// Why a file does not end where its fill does: it ends before, or something else stands there or end.
#[derive(Clone, Copy)]
pub enum WrongEnd {
    TooShort,
    Behind,
}

// Whether the next bits, at most 32 of them and all there, are zero.
fn zero_field(bits: Bits, count: u32) -> bool
    requires { (count ≤ 32) × (bits.at + count ≤ length (unpack bits.file.now)) }
    ensures { result ≡ same (take count (drop bits.entry.at (unpack bits.entry.file.now))) (zeros count) }
{
    if count == 0 {
        return true;
    }
    (bits.window() >> (64 - count)) == 0
}

// What stands behind the body, from its end on. Lengths are compared in bytes: in bits a slice's may not fit a word.
pub fn end_of(end: Bits, word: u32) -> Result<(), WrongEnd>
    requires { (1 ≤ word) × (word ≤ 8) × (end.at ≤ 2 ^ 61) × (end.at ≤ length (unpack end.file.now)) }
    ensures { result ≡ end_of word end.entry.at (drop end.entry.at (unpack end.entry.file.now)) }
{
    let unit = 8 * word as usize;
    let fill = ((unit - end.at % unit) % unit) as u32;
    let last = (end.at + fill as usize) / 8;
    if end.file.len() < last {
        return Err(WrongEnd::TooShort);
    }
    if last < end.file.len() {
        return Err(WrongEnd::Behind);
    }
    let half = fill / 2;
    if zero_field(end, half) {
        if zero_field(end.behind(half as usize), fill - half) {
            return Ok(());
        }
    }
    Err(WrongEnd::Behind)
}
