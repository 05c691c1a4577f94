// The header written part by part, bit by bit as the definition has it.
ghost use Rattle.std.specs.Prelude.{◌≡◌, true, ◌+◌, ◌-◌, ◌*◌, ◌/◌, ◌≤◌, ◌<◌, ◌^◌};
ghost use Rattle.bitstream.specs.Stream.{bits, zeros, filling};
ghost use Rattle.bitstream.specs.Writer.{Put};
ghost use Rattle.settings.specs.Legal.{predictor_legal, coder_legal};
ghost use Rattle.settings.specs.Limits.{file_ceiling, table_ceiling};
ghost use Rattle.settings.specs.Lists.{join};
ghost use Rattle.settings.specs.Tables.{entry, component_count, weight_legal};
ghost use Rattle.header.specs.Fields.{fields};
ghost use Rattle.header.specs.Parts.{image_fields, predictor_fields, coder_fields};
ghost use Rattle.header.specs.Tables.{twos, weight_table, accumulator_table};
ghost use Rattle.header.specs.Write.{weight_part, accumulator_part, header};
ghost use Rattle.header.specs.Writing.{Writable};

use super::fields::{chosen, put_fields};
use super::places::{CODER_WIDTHS, IMAGE_WIDTHS, PREDICTOR_WIDTHS};
use super::sizes::{padded, weight_bits};
use bitstream::write::Tail;
use integers::power_of;
use settings::tables::{PARAMETER_SLOT, TABLE_STRIDE, component_count};
use settings::{Coder, Image, Predictor, Settings};

// Table 5-1: M is zero where bands are sequential, and the coder's type is zero.
fn write_image(t: Tail, out: &mut [u8], i: Image) -> Tail
    requires { t.at ≤ file_ceiling }
    ensures { Put t out.old (fields (image_fields i 0)) result out.new }
{
    let signed = u32::from(i.signed);
    let sequential = u32::from(i.sequential);
    let interleave = chosen(i.sequential, 0, i.interleave);
    put_fields(
        t,
        out,
        &IMAGE_WIDTHS,
        &[
            u32::from(i.user),
            i.nx,
            i.ny,
            i.nz,
            signed,
            0,
            0,
            i.depth,
            sequential,
            interleave,
            0,
            i.word,
            0,
            0,
            0,
            0,
            0,
            0,
        ],
    )
}

// Table 5-2: Q is zero beside default weights.
fn write_predictor(t: Tail, out: &mut [u8], i: Image, p: Predictor) -> Tail
    requires { (predictor_legal i p ≡ true) × (t.at ≤ file_ceiling) }
    ensures { Put t out.old (fields (predictor_fields p)) result out.new }
{
    let reduced = u32::from(p.reduced);
    let column = u32::from(p.column);
    let interval = p.interval.ilog2() - 4;
    let vmin = (p.vmin + 6).unsigned_abs();
    let vmax = (p.vmax + 6).unsigned_abs();
    let custom = u32::from(p.custom);
    let in_file = u32::from(p.weights_in_file);
    let precision = chosen(p.custom, p.precision, 0);
    let resolution = p.resolution - 4;
    put_fields(
        t,
        out,
        &PREDICTOR_WIDTHS,
        &[
            0, 0, p.bands, reduced, 0, column, 0, p.register, resolution, interval, vmin, vmax, 0,
            custom, in_file, precision,
        ],
    )
}

// Table 5-3: K is all ones beside its table.
fn write_coder(t: Tail, out: &mut [u8], i: Image, c: Coder) -> Tail
    requires { (coder_legal i c ≡ true) × (t.at ≤ file_ceiling) }
    ensures { Put t out.old (fields (coder_fields c)) result out.new }
{
    let constant = chosen(c.tabled, 15, c.constant);
    let in_file = u32::from(c.k_in_file);
    put_fields(
        t,
        out,
        &CODER_WIDTHS,
        &[c.unary, c.rescaling - 4, c.initial, constant, in_file],
    )
}

// A weight of q bits in two's complement.
fn twos(q: u32, v: i32) -> u32
    requires { (1 ≤ q) × (q ≤ 22) × (weight_legal q v ≡ true) }
    ensures { (result ≡ twos q v) × (result < 2 ^ q) }
{
    v.cast_unsigned() % power_of(q)
}

// The weights of band z.
fn write_band(t: Tail, out: &mut [u8], s: Settings, tables: &[i32], z: usize) -> Tail
    requires { Writable s tables.now × (s.predictor.custom ≡ true) × (z < s.image.nz) × (t.at ≤ 2 * file_ceiling) }
    ensures { Put t out.old (join (λ i. bits s.predictor.precision (twos s.predictor.precision (entry tables.now z i))) 0 (component_count s.predictor z)) result out.new }
{
    let q = s.predictor.precision;
    let count = component_count(s.predictor, z);
    let base = TABLE_STRIDE * z;
    let mut tail = t;
    for weight in &tables[base..base + count] {
        tail = tail.put(out, twos(q, *weight), q);
    }
    tail
}

// The weights of all bands.
fn write_bands(t: Tail, out: &mut [u8], s: Settings, tables: &[i32]) -> Tail
    requires { Writable s tables.now × (s.predictor.custom ≡ true) × (t.at ≤ file_ceiling) }
    ensures { Put t out.old (weight_table s.predictor s.image.nz tables.now) result out.new }
{
    let mut tail = t;
    for z in 0..s.image.nz as usize {
        tail = write_band(tail, out, s, tables, z);
    }
    tail
}

// The zeros behind a table of n bits.
fn write_fill(t: Tail, out: &mut [u8], n: usize) -> Tail
    requires { (n ≤ table_ceiling) × (t.at < 2 ^ 60) }
    ensures { Put t out.old (zeros (filling 8 n)) result out.new }
{
    t.put(out, 0, (padded(n) - n) as u32)
}

// The weight table with its fill, where weights are custom.
fn write_weights(t: Tail, out: &mut [u8], s: Settings, tables: &[i32]) -> Tail
    requires { Writable s tables.now × (t.at ≤ file_ceiling) }
    ensures { Put t out.old (weight_part s tables.now) result out.new }
{
    if !s.predictor.custom {
        return t;
    }
    let tail = write_bands(t, out, s, tables);
    write_fill(tail, out, weight_bits(s.image, s.predictor))
}

// The k' of all bands.
fn write_entries(t: Tail, out: &mut [u8], s: Settings, tables: &[i32]) -> Tail
    requires { Writable s tables.now × (s.coder.tabled ≡ true) × (t.at ≤ 2 * file_ceiling) }
    ensures { Put t out.old (accumulator_table s.image.nz tables.now) result out.new }
{
    let mut tail = t;
    for z in 0..s.image.nz as usize {
        let entry = tables[TABLE_STRIDE * z + PARAMETER_SLOT];
        tail = tail.put(out, entry.unsigned_abs(), 4);
    }
    tail
}

// The table of k' with its fill, where one K does not serve all bands.
fn write_accumulators(t: Tail, out: &mut [u8], s: Settings, tables: &[i32]) -> Tail
    requires { Writable s tables.now × (t.at ≤ 2 * file_ceiling) }
    ensures { Put t out.old (accumulator_part s tables.now) result out.new }
{
    if !s.coder.tabled {
        return t;
    }
    let tail = write_entries(t, out, s, tables);
    write_fill(tail, out, 4 * s.image.nz as usize)
}

// The whole header.
pub fn write_header(s: Settings, tables: &[i32], t: Tail, out: &mut [u8]) -> Tail
    requires { Writable s tables.now × (t.at ≤ file_ceiling / 8) }
    ensures { Put t out.old (header s tables.now) result out.new }
{
    let image = write_image(t, out, s.image);
    let predictor = write_predictor(image, out, s.image, s.predictor);
    let weights = write_weights(predictor, out, s, tables);
    let coder = write_coder(weights, out, s.image, s.coder);
    write_accumulators(coder, out, s, tables)
}
