// What load and reset have in common: all that follows from the loaded records. Registers are
// copied function by function: one loop over all would divide at each byte (docs/DECISIONS.md).
ghost use Rattle.std.specs.Prelude.{◌≡◌, ◌≤◌, length, get_or};
ghost use Rattle.board.specs.Layout.{windows_max};
ghost use Rattle.board.specs.Parts.{parts};
ghost use Rattle.reset.specs.Reset.{registers_of, restarted};

use board::layout::{
    CellOffsets, FUNCTIONS, HOOK, Header, Hooks, MARK, RECORD, REGISTER_BYTES, Records, Registers,
    Used, WINDOWS, Windows,
};
use window_list::refresh::refresh;

// The reset values of all functions into the registers.
fn copy_registers(records: &Records, registers: &mut Registers)
    ensures { registers.new ≡ registers_of records.now }
{
    // Invariant: the registers of the functions before this one hold their reset values.
    for function in 0..FUNCTIONS {
        let from = RECORD * function;
        let to = REGISTER_BYTES * function;
        registers[to..to + REGISTER_BYTES].copy_from_slice(&records[from..from + REGISTER_BYTES]);
    }
}

// Registers, window list, hooks, marks and cells, from header, records and offsets.
pub(crate) fn restart(
    header: &Header,
    records: &Records,
    registers: &mut Registers,
    windows: &mut Windows,
    offsets: &CellOffsets,
    hooks: &mut Hooks,
    used: &mut Used,
    cells: &mut [u8],
)
    requires { get_or offsets.now windows_max 0 ≤ length cells.old }
    ensures { parts
        header.now records.now registers.new windows.new
        offsets.now hooks.new used.new cells.new
        ≡ restarted header.now records.now
        offsets.now cells.old }
{
    copy_registers(records, registers);
    refresh(header, records, registers, windows);
    *hooks = [0; HOOK * FUNCTIONS];
    *used = [0; MARK * FUNCTIONS];
    cells[..offsets[WINDOWS] as usize].fill(0);
}
