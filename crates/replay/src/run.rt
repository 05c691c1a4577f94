// The walk over an input, a record at a time. What is lent stays lent until a record of its kind. A call that is lent more than the
// arrays hold is not made, and its line says `over`, as the line of a kind that there is not.
use super::calls::{length, look, open, pack};
use replay_areas::areas::prepare;
use replay_areas::lines::{Told, line, over};
use replay_areas::records::{
    Area, Call, Change, Record, UnknownKind, read_bytes, read_record, read_slots,
};
use replay_areas::shared::{MOST_BYTES, MOST_IMAGE, MOST_SCRATCH, MOST_SETTINGS, MOST_TABLES};
use std::io::{self, Read, Write};
use std::mem;

// No proof can know that an input ends, so turns are counted, up to more than any input has.
const TURNS: u64 = 0xFFFF_FFFF;

// The slots of an area, and how many of them calls are lent: a number, and no shorter slice, for it may be more than there are, and the
// next record may lend more again.
#[derive(Drop)]
struct Slots<'a> {
    held: &'a mut [i32],
    lent: usize,
}

impl<'a> Slots<'a> {
    // None are lent yet. The array is a slice from here on.
    fn new<const N: usize>(held: &'a mut [i32; N]) -> Slots<'a> {
        Slots { held, lent: 0 }
    }

    // The first slots are given, and as many as `lent` are lent from now on.
    fn lend(&mut self, input: &mut impl Read, lent: usize, given: usize) -> io::Result<()> {
        read_slots(input, self.held, given)?;
        self.lent = lent;
        Ok(())
    }

    // What a call is lent, where there are as many.
    fn lent(&mut self) -> Option<&mut [i32]> {
        let lent = self.lent;
        let held = &mut *self.held;
        held.get_mut(..lent)
    }
}

// What calls are lent.
#[derive(Drop)]
struct Areas<'a> {
    settings: Slots<'a>,
    tables: Slots<'a>,
    image: Slots<'a>,
    scratch: Slots<'a>,
    bytes: &'a mut [u8],
}

impl Areas<'_> {
    fn lend(
        &mut self,
        input: &mut impl Read,
        area: Area,
        lent: usize,
        given: usize,
    ) -> io::Result<()> {
        match area {
            Area::Settings => self.settings.lend(input, lent, given),
            Area::Tables => self.tables.lend(input, lent, given),
            Area::Image => self.image.lend(input, lent, given),
            Area::Scratch => self.scratch.lend(input, lent, given),
        }
    }

    // A call, with one byte of the file changed; the byte is put back behind it.
    fn call(&mut self, call: Call, change: Change) -> Option<Told> {
        let before = self.exchange(change.place, change.byte);
        let told = self.make(call, change.length);
        self.exchange(change.place, before);
        told
    }

    // Puts a byte at a place, and answers the one that stood there.
    fn exchange(&mut self, place: usize, byte: u8) -> u8 {
        match self.bytes.get_mut(place) {
            Some(there) => mem::replace(there, byte),
            None => 0,
        }
    }

    // The call, on areas of just the lengths that it is to see. Those that it may write are prepared; scratch is not: a call finds
    // there what the one before it left, which must not change an answer.
    fn make(&mut self, call: Call, file_length: usize) -> Option<Told> {
        let settings = self.settings.lent()?;
        let tables = self.tables.lent()?;
        let image = self.image.lent()?;
        let scratch = self.scratch.lent()?;
        let bytes = self.bytes.get_mut(..file_length)?;
        Some(match call {
            Call::Pack => {
                prepare(bytes);
                pack(settings, tables, image, scratch, bytes)
            }
            Call::Length => length(settings, tables, image, scratch),
            Call::Open => {
                prepare(tables);
                prepare(image);
                prepare(settings);
                open(bytes, scratch, tables, image, settings)
            }
            Call::Look => {
                prepare(settings);
                look(bytes, settings)
            }
        })
    }
}

// The arrays of a run.
pub fn run(input: &mut impl Read, output: &mut impl Write) -> io::Result<()> {
    let mut settings = [0; MOST_SETTINGS];
    let mut tables = [0; MOST_TABLES];
    let mut image = [0; MOST_IMAGE];
    let mut scratch = [0; MOST_SCRATCH];
    let mut bytes = [0; MOST_BYTES];
    let mut areas = Areas {
        settings: Slots::new(&mut settings),
        tables: Slots::new(&mut tables),
        image: Slots::new(&mut image),
        scratch: Slots::new(&mut scratch),
        bytes: &mut bytes,
    };
    walk(input, output, &mut areas)
}

// What each record lends, or its call and the line about it.
fn walk(input: &mut impl Read, output: &mut impl Write, areas: &mut Areas<'_>) -> io::Result<()> {
    for _ in 0..TURNS {
        match Record::try_from(read_record(input)?) {
            Ok(Record::End) => break,
            Ok(Record::Lend { area, lent, given }) => areas.lend(input, area, lent, given)?,
            Ok(Record::File { given }) => read_bytes(input, areas.bytes, given)?,
            Ok(Record::Make(call, change)) => match areas.call(call, change) {
                Some(told) => line(output, name(call), told)?,
                None => over(output)?,
            },
            Err(UnknownKind) => over(output)?,
        }
    }
    Ok(())
}

// How the line of a call begins.
fn name(call: Call) -> &'static [u8] {
    match call {
        Call::Pack => b"pack",
        Call::Length => b"length",
        Call::Open => b"open",
        Call::Look => b"look",
    }
}
