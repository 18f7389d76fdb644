// Replays the trace that stands on standard input (docs/TRACE.md): performs its calls and prints
// each with its arguments and its answer, as a system-call tracer does.
#![tactic(auto)]

mod answers;
mod calls;
mod descriptors;
mod forms;
mod stop;

use crate::calls::replay;
use crate::stop::Stop;
use full_read::read_full;
use numbers::number::{Width, big_at};
use std::io;
use std::io::{Read, Write};

// "PCIT", and the version of the format that is known here.
const MAGIC: u32 = 0x50434954;

const VERSION: u32 = 1;

// The bytes before the cells, and the cells at most.
const OPENING: usize = 12;

const CELLS: usize = 65536;

// How many cells the trace says, in what stands before them.
fn open<R: Read>(input: &mut R) -> Result<usize, Stop> {
    let mut opening = [0u8; OPENING];
    let got = read_full(input, &mut opening)?;
    if (got < OPENING) | (big_at(&opening, 0, Width::Long) != MAGIC) {
        return Err(Stop::NoTrace);
    }
    let version = big_at(&opening, 4, Width::Long);
    if version != VERSION {
        return Err(Stop::OtherVersion(version));
    }
    Ok(big_at(&opening, 8, Width::Long) as usize)
}

// Reads the cells, then replays the calls. Gives how many there are.
fn run<R: Read, W: Write>(input: &mut R, out: &mut W, cells: &mut [u8]) -> Result<u64, Stop> {
    let length = open(input)?;
    if cells.len() < length {
        return Err(Stop::CellsAbove);
    }
    let cells = &mut cells[..length];
    if read_full(input, cells)? < length {
        return Err(Stop::CellsCut);
    }
    replay(input, out, cells)
}

// Each line goes out before the next call is read.
fn main(rt: HostRuntime) -> io::Result<()> {
    let mut out = io::writer(&rt);
    let mut cells = [0u8; CELLS];
    match run(&mut rt.stdin(), &mut out, &mut cells) {
        Ok(calls) => writeln!(out, "{calls} calls")?,
        Err(Stop::Io(error)) => return Err(error),
        Err(stop) => writeln!(out, "{stop}")?,
    }
    out.flush()
}
