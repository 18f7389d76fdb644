// Scripts for C: a buffer of calls, performed in place.
ghost use Rattle.std.specs.Prelude.{◌≡◌};
ghost use Rattle.board.specs.Parts.{parts};
ghost use Rattle.script.specs.Script.{ran, run_of};

use board::layout::{CellOffsets, Header, Hooks, Records, Registers, Used, Windows};
use board::parts::Board;
use script::run::run;

// Performs the calls of a script from the board before the first load. Gives the position of the
// first malformed call, or the script's length.
#[unsafe(no_mangle)]
pub extern "C" fn bios_run_script(
    script: &mut [u8],
    header: &mut Header,
    records: &mut Records,
    registers: &mut Registers,
    windows: &mut Windows,
    offsets: &mut CellOffsets,
    hooks: &mut Hooks,
    used: &mut Used,
    cells: &mut [u8],
) -> usize
    ensures { ran result script.new
        (parts header.new records.new registers.new
        windows.new offsets.new
        hooks.new used.new cells.new)
        ≡ run_of script.old cells.old }
{
    let mut board = Board {
        header: header,
        records: records,
        registers: registers,
        windows: windows,
        offsets: offsets,
        hooks: hooks,
        used: used,
        cells: cells,
    };
    run(script, &mut board)
}
