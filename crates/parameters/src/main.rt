// The code's parameter k for every counter below 2^11, with sums around each power of two, where a number grows by a bit, and around
// each Γ·2^k, where k changes; for depths whose D − 2 is below, at and above every such k. A line for each counter has the hash of
// its k. `stdout` is written by tools/feeds: the independent program tries k upwards.
// Nothing here is proved to be right, only to be safe: sums that are wrong give lines that differ.
#![tactic(auto)]

use coder::Statistics;
use coder::selection::code_parameter;
use replay_areas::hash::word;
use replay_areas::lines::{Told, line};
use std::io::{self, Write};

// One more than the largest counter, of γ* = 11.
const COUNTERS: u32 = 2048;

// The largest accumulator.
const MOST: u64 = 0xFFFF_FFFF;

// The k of each depth for one sum; sums that no accumulator makes are passed over.
fn depths(start: u64, count: u32, sum: u64) -> u64 {
    let share = 49 * u64::from(count) / 128;
    let Some(Ok(accumulator)) = sum.checked_sub(share).map(u32::try_from) else {
        return start;
    };
    let s = Statistics { count, accumulator };
    (2..36).fold(start, |hash, depth| word(hash, code_parameter(s, depth)))
}

// The sums beside a number, and the number itself.
fn around(start: u64, count: u32, middle: u64) -> u64 {
    if middle == 0 || 2 * MOST < middle {
        return start;
    }
    (middle - 1..=middle + 1).fold(start, |hash, sum| depths(hash, count, sum))
}

// Every sum of a counter.
fn sums(count: u32) -> u64 {
    let mut hash = 0;
    for k in 0u32..33 {
        hash = around(hash, count, 1 << k);
        hash = around(hash, count, u64::from(count) << k);
    }
    hash
}

// The line of a counter.
fn tell(output: &mut impl Write, count: u32) -> io::Result<()> {
    let hash = sums(count);
    let told = Told {
        answer: u64::from(count),
        hash,
    };
    line(output, b"parameter", told)
}

fn main(rt: HostRuntime) -> io::Result<()> {
    let mut output = rt.stdout();
    for count in 1..COUNTERS {
        tell(&mut output, count)?;
    }
    Ok(())
}
