// Fields of fixed width in a row: read into numbers, and put.
ghost use Rattle.std.specs.Prelude.{◌≡◌, true, cond, ◌+◌, ◌≤◌, ◌<◌, ◌^◌, length, drop, take};
ghost use Rattle.bitstream.specs.Stream.{unpack, number};
ghost use Rattle.bitstream.specs.Writer.{Put};
ghost use Rattle.settings.specs.Limits.{file_ceiling};
ghost use Rattle.header.specs.Fields.{split, fields};
ghost use Rattle.header.specs.FieldLaws.{total};
ghost use Rattle.header.specs.Plain.{fitting};
ghost use Rattle.header.specs.Writing.{fields_of};

use bitstream::read::Bits;
use bitstream::write::Tail;
use integers::power_of;

// The number of `width` bits at a position, all of them in the file.
pub fn number_at(bits: Bits, width: u32) -> u32
    requires { (0 < width) × (width ≤ 32) × (bits.at ≤ 2 ^ 62) × (bits.at + width ≤ length (unpack bits.file.now)) }
    ensures { result ≡ number (take width (drop bits.entry.at (unpack bits.entry.file.now))) }
{
    match bits.get(width) {
        Ok((value, _)) => value,
        Err(_) => 0,
    }
}

// The numbers of fields of these widths, one after the other.
pub fn numbers(bits: Bits, widths: &[u32], values: &mut [u32])
    requires { (fitting widths.now ≡ true) × (length values.old ≡ length widths.now) × (bits.at ≤ 2 ^ 61) × (total widths.now ≤ 2 ^ 61) × (bits.at + total widths.now ≤ length (unpack bits.file.now)) }
    ensures { values.new ≡ split widths.now (drop bits.entry.at (unpack bits.entry.file.now)) }
{
    let mut rest = bits;
    for (i, value) in values.iter_mut().enumerate() {
        let width = widths[i];
        *value = number_at(rest, width);
        rest = rest.behind(width as usize);
    }
}

// Puts fields of these widths, one after the other, each with its value modulo 2^width.
pub fn put_fields(t: Tail, out: &mut [u8], widths: &[u32], values: &[u32]) -> Tail
    requires { (fitting widths.now ≡ true) × (length values.now ≡ length widths.now) × (length widths.now ≤ 64) × (t.at ≤ file_ceiling) }
    ensures { Put t out.old (fields (fields_of widths.now values.now)) result out.new }
{
    let mut tail = t;
    for (width, value) in widths.iter().zip(values) {
        tail = tail.put(out, *value % power_of(*width), *width);
    }
    tail
}

// A value where a flag is set, and another where it is not.
pub fn chosen(flag: bool, a: u32, b: u32) -> u32
    ensures { result ≡ cond flag a b }
{
    if flag { a } else { b }
}
