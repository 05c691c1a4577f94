// The input's pieces: records of four words, and the words or bytes that an area is given. Words are of 32 bits, most significant
// byte first. Where the input ends, words read as 0.
//
//      1 settings  slots lent, slots given, 0; then the given slots, a word each
//      2 tables    the same
//      3 image     the same: the samples to pack, and the area for an image
//      4 scratch   the same
//      5 bytes     0, bytes given, 0; then the bytes: a file, and zeros by which a change can lengthen it
//     11 pack      0, 0, bytes of the output
//     12 length    0, 0, 0
//     13 open      place, byte, length: the file with that byte at that place, then of that length
//     14 look      the same
//      0           ends the run, as the end of the input does
ghost use Rattle.replay_areas.specs.Records.{Reads};

use std::io::{self, Read};

// An area of slots.
#[derive(Clone, Copy)]
pub enum Area {
    Settings,
    Tables,
    Image,
    Scratch,
}

// A call of the boundary.
#[derive(Clone, Copy)]
pub enum Call {
    Pack,
    Length,
    Open,
    Look,
}

// What a call is lent of the file: its first `length` bytes, where `byte` stands at `place`.
#[derive(Clone, Copy)]
pub struct Change {
    pub place: usize,
    pub byte: u8,
    pub length: usize,
}

// What a record says.
#[derive(Clone, Copy)]
pub enum Record {
    // Calls are lent the area's first `lent` slots, and its first `given` follow.
    Lend {
        area: Area,
        lent: usize,
        given: usize,
    },
    // The file's first `given` bytes follow.
    File {
        given: usize,
    },
    Make(Call, Change),
    End,
}

// A kind that no record has.
#[derive(Clone, Copy)]
pub struct UnknownKind;

impl TryFrom<[u32; 4]> for Record {
    type Error = UnknownKind;

    ghost try_from_gives = { Reads };

    fn try_from(words: [u32; 4]) -> Result<Record, UnknownKind> {
        let [kind, first, second, third] = words;
        let slots = |area: Area| Record::Lend {
            area,
            lent: first as usize,
            given: second as usize,
        };
        let change = Change {
            place: first as usize,
            byte: (second % 256) as u8,
            length: third as usize,
        };
        match kind {
            0 => Ok(Record::End),
            1 => Ok(slots(Area::Settings)),
            2 => Ok(slots(Area::Tables)),
            3 => Ok(slots(Area::Image)),
            4 => Ok(slots(Area::Scratch)),
            5 => Ok(Record::File {
                given: second as usize,
            }),
            11 => Ok(Record::Make(Call::Pack, change)),
            12 => Ok(Record::Make(Call::Length, change)),
            13 => Ok(Record::Make(Call::Open, change)),
            14 => Ok(Record::Make(Call::Look, change)),
            _ => Err(UnknownKind),
        }
    }
}

// The words of the next record; behind the end of the input they are all 0, which ends a run.
pub fn read_record(input: &mut impl Read) -> io::Result<[u32; 4]> {
    let mut words = [[0; 4]; 4];
    read_full(input, words.as_flattened_mut())?;
    Ok(words.map(u32::from_be_bytes))
}

// The next slot, whose two's complement a word is.
fn read_slot(input: &mut impl Read) -> io::Result<i32> {
    let mut bytes = [0; 4];
    read_full(input, &mut bytes)?;
    Ok(i32::from_be_bytes(bytes))
}

// Gives an area its first `count` slots. What goes beyond the area is left in the input, whose next record then is none.
pub fn read_slots(input: &mut impl Read, area: &mut [i32], count: usize) -> io::Result<()> {
    for slot in area.iter_mut().take(count) {
        *slot = read_slot(input)?;
    }
    Ok(())
}

// Gives an area its first `count` bytes. It is no `read_slots` for bytes: of more than the area has, none are read.
pub fn read_bytes(input: &mut impl Read, area: &mut [u8], count: usize) -> io::Result<()> {
    match area.get_mut(..count) {
        Some(room) => read_full(input, room),
        None => Ok(()),
    }
}

// The next bytes, as many as there is room for. Where the input ends before, the rest of the room is left as it is. They are asked for
// one by one. std's `read_exact` would tell the input's end as an error of a kind that a reader's own error may have, and would lend
// the reader the room, which it may fill further than it tells; and any read of several bytes lets a reader's answer rest on how many.
fn read_full(input: &mut impl Read, room: &mut [u8]) -> io::Result<()> {
    for (place, byte) in room.iter_mut().zip(input.by_ref().bytes()) {
        *place = byte?;
    }
    Ok(())
}

#[cfg(test)]
mod tests {
    use super::*;
    use std::io::{Error, ErrorKind};

    // A reader that gives some bytes, one at a time, and then ends or fails, with an error of the kind by which std tells a short
    // input. It writes behind what it gives, as a reader may.
    #[derive(Drop)]
    struct Giving {
        left: usize,
        fails: bool,
    }

    impl Read for Giving {
        fn read(&mut self, buf: &mut [u8]) -> io::Result<usize> {
            for byte in buf.iter_mut() {
                *byte = 0xEE;
            }
            if buf.is_empty() {
                return Ok(0);
            }
            if self.left == 0 {
                return if self.fails {
                    Err(Error::from(ErrorKind::UnexpectedEof))
                } else {
                    Ok(0)
                };
            }
            buf[0] = 11;
            self.left -= 1;
            Ok(1)
        }
    }

    #[test]
    fn an_error_of_the_reader_is_no_end_of_the_input(rt: HostRuntime) {
        for left in [0, 4, 15] {
            let mut input = Giving { left, fails: true };
            let read = read_record(&mut input);
            assert!(rt; read.is_err(), "behind {left} bytes");
        }
    }

    #[test]
    fn a_cut_record_has_the_bytes_that_are_there(rt: HostRuntime) -> io::Result<()> {
        for (left, words) in [(0, [0; 4]), (5, [0x0B0B_0B0B, 0x0B00_0000, 0, 0])] {
            let mut input = Giving { left, fails: false };
            assert_eq!(rt; read_record(&mut input)?, words, "of {left} bytes");
        }
        let mut whole: &[u8] = &[0, 0, 0, 13, 0, 0, 1, 2, 0, 0, 0, 3, 0, 0, 0, 4, 5];
        assert_eq!(rt; read_record(&mut whole)?, [13, 258, 3, 4]);
        Ok(())
    }

    #[test]
    fn an_area_behind_the_end_stays(rt: HostRuntime) -> io::Result<()> {
        let mut area = [7; 100];
        let mut input = Giving {
            left: 70,
            fails: false,
        };
        read_bytes(&mut input, &mut area, 90)?;
        let mut given = area.iter().take(70);
        let mut kept = area.iter().skip(70);
        assert!(rt; given.all(|byte| *byte == 11));
        assert!(rt; kept.all(|byte| *byte == 7));
        Ok(())
    }
}
