// The table area filled from the header's tables.
ghost use Rattle.std.specs.Prelude.{◌≡◌, true, ◌+◌, ◌*◌, ◌≤◌, ◌<◌, ◌^◌, pos, length, take, drop};
ghost use Rattle.bitstream.specs.Stream.{unpack, number};
ghost use Rattle.settings.specs.Tables.{table_stride, component_count};
ghost use Rattle.header.specs.Parts.{predictor_end};
ghost use Rattle.header.specs.Tables.{signed_of, components_before};
ghost use Rattle.header_values.specs.Storing.{Storing, Stored, AccumulatorsDone, BandStored, slot_in};

use bitstream::read::Bits;
use header::fields::number_at;
use header::sizes::{FIXED_BITS, PREDICTOR_END, weights_size};
use integers::power_of;
use settings::Settings;
use settings::tables::{PARAMETER_SLOT, TABLE_STRIDE, component_count};

// The number that q bits are in two's complement. No type has q bits, so no conversion of std's
// says it, and `integers::wrap` is of the predictor's register, with 64 bits.
fn signed_of(q: u32, v: u32) -> i32
    requires { (1 ≤ q) × (q ≤ 22) × (v < 2 ^ q) }
    ensures { result ≡ signed_of q v }
{
    if v < power_of(q - 1) {
        return v as i32;
    }
    v as i32 - power_of(q) as i32
}

// The k' of band z, off the table that stands at `entries`.
fn accumulator_at(entries: Bits, s: Settings, z: usize) -> i32
    requires { AccumulatorsDone (unpack entries.file.now) s entries.at × (s.coder.tabled ≡ true) × (z < s.image.nz) }
    ensures { result ≡ pos (number (take 4 (drop (entries.entry.at + 4 * z) (unpack entries.entry.file.now)))) }
{
    number_at(entries.behind(4 * z), 4) as i32
}

// Weight i of band z, which has `first` weights before it.
fn weight_at(entries: Bits, s: Settings, first: usize, z: usize, i: usize) -> i32
    requires { AccumulatorsDone (unpack entries.file.now) s entries.at × (s.predictor.custom ≡ true) × (first ≡ components_before s.predictor z) × (z < s.image.nz) × (i < component_count s.predictor z) }
    ensures { result ≡ signed_of s.predictor.precision (number (take s.predictor.precision (drop (predictor_end + s.predictor.precision * (first + i)) (unpack entries.entry.file.now)))) }
{
    let q = s.predictor.precision;
    let weight = Bits {
        file: entries.file,
        at: PREDICTOR_END + q as usize * (first + i),
    };
    signed_of(q, number_at(weight, q))
}

// What slot i of band z holds: zero where no table has it.
fn slot_at(entries: Bits, s: Settings, first: usize, z: usize, i: usize) -> i32
    requires { AccumulatorsDone (unpack entries.file.now) s entries.at × (first ≡ components_before s.predictor z) × (z < s.image.nz) × (i < table_stride) }
    ensures { result ≡ slot_in (unpack entries.entry.file.now) s entries.entry.at first z i }
{
    if i == PARAMETER_SLOT {
        if s.coder.tabled {
            return accumulator_at(entries, s, z);
        }
        return 0;
    }
    if !s.predictor.custom {
        return 0;
    }
    if i < component_count(s.predictor, z) {
        return weight_at(entries, s, first, z, i);
    }
    0
}

// Fills the slots of band z.
fn store_band(entries: Bits, s: Settings, tables: &mut [i32], first: usize, z: usize)
    requires { AccumulatorsDone (unpack entries.file.now) s entries.at × (first ≡ components_before s.predictor z) × (z < s.image.nz) × (table_stride * s.image.nz ≤ length tables.old) }
    ensures { BandStored (unpack entries.entry.file.now) z tables.old tables.new }
{
    let base = TABLE_STRIDE * z;
    let slots = &mut tables[base..base + TABLE_STRIDE];
    for (i, slot) in slots.iter_mut().enumerate() {
        *slot = slot_at(entries, s, first, z, i);
    }
}

// Fills the table area from the header's tables: the second pass, made when the reader is allowed to touch the area.
pub fn store_tables(file: &[u8], s: Settings, tables: &mut [i32])
    requires { Storing (unpack file.now) s tables.old }
    ensures { Stored (unpack file.now) s tables.old tables.new }
{
    let entries = Bits {
        file,
        at: FIXED_BITS + weights_size(s.image, s.predictor),
    };
    let mut first = 0;
    for z in 0..s.image.nz as usize {
        store_band(entries, s, tables, first, z);
        first += component_count(s.predictor, z);
    }
}
