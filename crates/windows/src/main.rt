// Lists the windows of the board whose image stands on standard input: document 01, "Board B1 and
// its cases". The count is printed before the windows, so that the list is gone through twice.
#![tactic(auto)]

ghost use Rattle.std.specs.Prelude.{◌≡◌, length};

use board::layout::{FUNCTIONS, HEADER, HOOK, MARK, RECORD, REGISTER_BYTES, WINDOWS, Windows};
use board::parts::Board;
use full_read::read_full;
use image_check::check::IMAGE;
use image_refusals::verdict::CELLS;
use load::calls::load;
use std::io;
use std::io::Write;
use window_listing::listing::{Listed, ListedWindow, list_window};

// Room for the longest image and one byte more, so that a longer one is seen to be longer.
fn input_buffer() -> [u8; IMAGE + 1]
    ensures { 65537 ≡ length result }
{
    [0u8; IMAGE + 1]
}

// Space, start and length in eight hexadecimal digits, handle, base register, mark.
fn show<W: Write>(out: &mut W, listed: Listed) -> io::Result<()> {
    let (space, start, length) = match listed.window {
        ListedWindow::Memory { start, length } => ("mem", start.number(), length),
        ListedWindow::Io { start, length } => ("io", start.number(), length),
    };
    let mark = if listed.contested {
        "contested"
    } else {
        "clear"
    };
    write!(out, "{space} {start:08x} {length:08x} ")?;
    writeln!(out, "{} {} {mark}", listed.handle, listed.base)
}

fn list<W: Write>(out: &mut W, windows: &Windows) -> io::Result<()> {
    let count = (0..WINDOWS as u32)
        .map_while(|n| list_window(windows, n).ok())
        .count();
    writeln!(out, "windows {count}")?;
    for listed in (0..WINDOWS as u32).map_while(|n| list_window(windows, n).ok()) {
        show(out, listed)?;
    }
    Ok(())
}

fn main(rt: HostRuntime) -> io::Result<()> {
    let mut input = input_buffer();
    let n = read_full(&mut rt.stdin(), &mut input)?;
    let mut cells = [0u8; CELLS as usize];
    let mut windows = [0; WINDOWS];
    let verdict = load(
        &input[..n],
        &mut Board {
            header: &mut [0; HEADER],
            records: &mut [0; FUNCTIONS * RECORD],
            registers: &mut [0; FUNCTIONS * REGISTER_BYTES],
            windows: &mut windows,
            offsets: &mut [0; WINDOWS + 1],
            hooks: &mut [0; HOOK * FUNCTIONS],
            used: &mut [0; MARK * FUNCTIONS],
            cells: &mut cells,
        },
    );
    let mut out = io::writer(&rt);
    match verdict {
        Ok(()) => list(&mut out, &windows)?,
        Err(refusal) => writeln!(out, "refused {}", refusal.number())?,
    }
    out.flush()
}
