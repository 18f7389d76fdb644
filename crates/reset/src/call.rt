// Reset: the cells are tested, then the board is restarted from its loaded records.
ghost use Rattle.std.specs.Prelude.{◌≡◌};
ghost use Rattle.board.specs.Parts.{parts};
ghost use Rattle.reset.specs.Reset.{reset_outcome, reset};

use crate::restart::restart;
use board::layout::{CellOffsets, Header, Hooks, Records, Registers, Used, WINDOWS, Windows};
use board::status::{CallRefusal, Status};

// The board as loaded; refused where the cells are shorter than its total. It takes the parts one
// by one, as C lends header, records and offsets to be read only.
#[tactic(auto, unfolding(crate::specs::Reset::reset))]
pub fn reset(
    header: &Header,
    records: &Records,
    registers: &mut Registers,
    windows: &mut Windows,
    offsets: &CellOffsets,
    hooks: &mut Hooks,
    used: &mut Used,
    cells: &mut [u8],
) -> Status
    ensures { reset_outcome result (parts
        header.now records.now registers.new windows.new
        offsets.now hooks.new used.new cells.new)
        ≡ reset (parts
        header.now records.now registers.old windows.old
        offsets.now hooks.old used.old cells.old) }
{
    if cells.len() < offsets[WINDOWS] as usize {
        return Err(CallRefusal::BufferTooSmall);
    }
    restart(
        header, records, registers, windows, offsets, hooks, used, cells,
    );
    Ok(())
}
