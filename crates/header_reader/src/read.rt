// The header read off a file, part by part: the first refusal in document 01's order is handed up.
ghost use Rattle.std.specs.Prelude.{◌≡◌, true, ◌+◌, ◌-◌, ◌*◌, ◌≤◌, ◌<◌, ◌^◌, leb, ltb, eqb, length, take, drop};
ghost use Rattle.bitstream.specs.Stream.{unpack, number};
ghost use Rattle.settings.specs.Legal.{predictor_legal};
ghost use Rattle.settings.specs.Limits.{most_bands, table_ceiling};
ghost use Rattle.settings.specs.Tables.{every};
ghost use Rattle.header.specs.Fields.{split};
ghost use Rattle.header.specs.FieldLaws.{total};
ghost use Rattle.header.specs.Plain.{fitting};
ghost use Rattle.header.specs.Parts.{image_bits, predictor_end};
ghost use Rattle.header.specs.Read.{read_image, read_predictor, read_weights, read_coder, read_accumulators};
ghost use Rattle.header_values.specs.Progress.{ImageDone, PredictorDone, WeightsDone, CoderDone};
ghost use Rattle.header_reader.specs.Answers.{image_read, predictor_read, coder_read, table_read, HeaderMeans};

use bitstream::read::Bits;
use header::fields::{number_at, numbers};
use header::places;
use header::sizes::{
    CODER_BITS, IMAGE_BITS, PREDICTOR_END, accumulators_size, padded, weight_bits, weights_size,
};
use header_values::parts::{coder_of, image_of, image_plain, predictor_of, predictor_plain};
use refusals::Refusal;
use settings::legal::{coder_legal, image_legal, limited, predictor_legal};
use settings::{Coder, Image, Predictor, Settings};

// The file ends before a position in bits: one that is only compared, so no `Bits`. It is compared in bytes, for the length in bits may
// not fit a word.
fn ends_before(file: &[u8], end: usize) -> bool
    requires { end ≤ 4 * table_ceiling }
    ensures { result ≡ ltb (length (unpack file.now)) end }
{
    file.len() < (end + 7) / 8
}

// The numbers of a table's fields, from a position on.
fn numbers_of<const N: usize>(bits: Bits, widths: &[u32; N]) -> [u32; N]
    requires { (fitting widths.now ≡ true) × (bits.at ≤ 2 * table_ceiling) × (total widths.now ≤ 2 ^ 61) × (bits.at + total widths.now ≤ length (unpack bits.file.now)) }
    ensures { result ≡ split widths.now (drop bits.entry.at (unpack bits.entry.file.now)) }
{
    let mut values = [0; N];
    numbers(bits, widths, &mut values);
    values
}

// The first 12 bytes: present, then their fields, then the coder's type, then the house limits.
fn read_image(file: &[u8]) -> Result<Image, Refusal>
    ensures { result ≡ image_read (read_image (unpack file.now)) }
{
    if ends_before(file, IMAGE_BITS) {
        return Err(Refusal::EndsInHeader);
    }
    let fields = Bits { file, at: 0 };
    let v = numbers_of(fields, &places::IMAGE_WIDTHS);
    let image = image_of(v);
    if !(image_legal(image) & image_plain(v)) {
        return Err(Refusal::IllegalField);
    }
    if v[places::CODER_TYPE] == 1 {
        return Err(Refusal::BlockCoder);
    }
    if !limited(image) {
        return Err(Refusal::HouseLimit);
    }
    Ok(image)
}

// The five bytes behind: present, then their fields.
fn read_predictor(file: &[u8], image: Image) -> Result<Predictor, Refusal>
    ensures { result ≡ predictor_read (read_predictor image (drop image_bits (unpack file.now))) }
{
    if ends_before(file, PREDICTOR_END) {
        return Err(Refusal::EndsInHeader);
    }
    let fields = Bits {
        file,
        at: IMAGE_BITS,
    };
    let v = numbers_of(fields, &places::PREDICTOR_WIDTHS);
    let predictor = predictor_of(v);
    if !(predictor_legal(image, predictor) & predictor_plain(v)) {
        return Err(Refusal::IllegalField);
    }
    Ok(predictor)
}

// The two bytes from a position on: present, then their fields.
fn read_coder(bits: Bits, image: Image) -> Result<Coder, Refusal>
    requires { bits.at ≤ 2 * table_ceiling }
    ensures { result ≡ coder_read (read_coder image (drop bits.entry.at (unpack bits.entry.file.now))) }
{
    if ends_before(bits.file, bits.at + CODER_BITS) {
        return Err(Refusal::EndsInHeader);
    }
    let v = numbers_of(bits, &places::CODER_WIDTHS);
    let coder = coder_of(v);
    if !coder_legal(image, coder) {
        return Err(Refusal::IllegalField);
    }
    Ok(coder)
}

// Fewer than eight bits from a position on are zero.
fn fill_clear(bits: Bits, width: usize) -> bool
    requires { (width ≤ 7) × (bits.at ≤ 2 * table_ceiling) × (bits.at + width ≤ length (unpack bits.file.now)) }
    ensures { result ≡ eqb (number (take width (drop bits.entry.at (unpack bits.entry.file.now)))) 0 }
{
    if width == 0 {
        return true;
    }
    number_at(bits, width as u32) == 0
}

// The weight table, where there is one: present, then its fill. Any value is a weight.
fn read_weights(file: &[u8], image: Image, predictor: Predictor) -> Result<(), Refusal>
    requires { (predictor_legal image predictor ≡ true) × (image.nz ≤ most_bands) × (predictor_end ≤ length (unpack file.now)) }
    ensures { result ≡ table_read (read_weights image predictor (drop predictor_end (unpack file.now))) }
{
    if !predictor.custom {
        return Ok(());
    }
    let n = weight_bits(image, predictor);
    let size = padded(n);
    if ends_before(file, PREDICTOR_END + size) {
        return Err(Refusal::EndsInHeader);
    }
    let fill = Bits {
        file,
        at: PREDICTOR_END + n,
    };
    if !fill_clear(fill, size - n) {
        return Err(Refusal::IllegalField);
    }
    Ok(())
}

// Every k' of a table is at most D − 2.
fn entries_legal(entries: Bits, image: Image) -> bool
    requires { (2 ≤ image.depth) × (image.nz ≤ most_bands) × (entries.at ≤ 2 * table_ceiling) × (entries.at + 4 * image.nz ≤ length (unpack entries.file.now)) }
    ensures { result ≡ every image.nz (λ z. leb (number (take 4 (drop (entries.entry.at + 4 * z) (unpack entries.entry.file.now)))) (image.depth - 2)) }
{
    let most = image.depth - 2;
    (0..image.nz as usize).all(|z| number_at(entries.behind(4 * z), 4) <= most)
}

// The table of k', where there is one: present, then its entries and its fill.
fn read_accumulators(entries: Bits, image: Image, coder: Coder) -> Result<(), Refusal>
    requires { (2 ≤ image.depth) × (image.nz ≤ most_bands) × (entries.at ≤ table_ceiling) × (entries.at ≤ length (unpack entries.file.now)) }
    ensures { result ≡ table_read (read_accumulators image coder (drop entries.entry.at (unpack entries.entry.file.now))) }
{
    if !coder.tabled {
        return Ok(());
    }
    let n = 4 * image.nz as usize;
    let size = padded(n);
    if ends_before(entries.file, entries.at + size) {
        return Err(Refusal::EndsInHeader);
    }
    if !(entries_legal(entries, image) & fill_clear(entries.behind(n), size - n)) {
        return Err(Refusal::IllegalField);
    }
    Ok(())
}

// The whole header, and the bit behind it: each part goes on where the one before it ends.
pub fn read_header(file: &[u8]) -> Result<(Settings, usize), Refusal>
    ensures { HeaderMeans (unpack file.now) result }
{
    let image = read_image(file)?;
    let predictor = read_predictor(file, image)?;
    read_weights(file, image, predictor)?;
    let weighted = Bits {
        file,
        at: PREDICTOR_END + weights_size(image, predictor),
    };
    let coder = read_coder(weighted, image)?;
    let coded = weighted.behind(CODER_BITS);
    read_accumulators(coded, image, coder)?;
    let settings = Settings {
        image,
        predictor,
        coder,
    };
    Ok((settings, coded.at + accumulators_size(image, coder)))
}
