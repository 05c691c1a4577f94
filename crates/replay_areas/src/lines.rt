// The line of a call: its name, the number and the value of the word that it answered, and the hash of what it was lent.
ghost use Rattle.std.specs.Prelude.{Some};
ghost use Rattle.replay_areas.specs.Lines.{told_text};

use std::fmt::{self, Display};
use std::io::{self, Write};

// The number stands in the word's highest byte.
const NUMBER_UNIT: u64 = 0x100_0000_0000_0000;

// What a line tells: the word that a call answered, and the hash of every area that it may have written, but for scratch.
#[derive(Clone, Copy)]
pub struct Told {
    pub answer: u64,
    pub hash: u64,
}

impl Display for Told {
    ghost output = { λ t. Some (told_text t.answer t.hash) };

    fn fmt<W: fmt::Write>(&self, f: &mut fmt::Formatter<W>) -> fmt::Result {
        let number = self.answer / NUMBER_UNIT;
        let value = self.answer % NUMBER_UNIT;
        let hash = self.hash;
        write!(f, "{number} {value} {hash:x}")
    }
}

pub fn line(output: &mut impl Write, name: &[u8], told: Told) -> io::Result<()> {
    output.write_all(name)?;
    writeln!(output, " {told}")
}

// The line of a call that does not fit this program's arrays, which is then not made. The independent program writes no such line.
pub fn over(output: &mut impl Write) -> io::Result<()> {
    output.write_all(b"over\n")
}
