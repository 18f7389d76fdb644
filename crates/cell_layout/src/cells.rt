// The cells of the windows: how many each has, and where they begin. Both loops go over all 96
// slots: past the end of the records the reader gives 0, an exponent that has no cells.
ghost use Rattle.std.specs.Prelude.{◌≡◌, ◌+◌, ◌<◌, ◌≤◌, length};
ghost use Rattle.board.specs.Layout.{windows_max, exponent};
ghost use Rattle.cell_layout.specs.Cells.{slot_cells, total, offsets_of};

use board::layout::{BASES, CellOffsets, ENTRIES, ENTRY, RECORD, Records, WINDOWS};
use numbers::number::byte_at;
use window::decode::window_length;

// The cells of slot s: base register s % 6 of the function at place s / 6.
fn slot_cells(records: &[u8], s: usize) -> u32
    requires { s < windows_max }
    ensures value { result ≡ slot_cells (exponent records.now) s }
    ensures upper_bound { result ≤ 65536 }
{
    let at = RECORD * (s / BASES) + (ENTRIES as usize + ENTRY as usize * (s % BASES));
    window_length(byte_at(records, at))
}

// The cells of all windows.
#[tactic(auto, unfolding(crate::specs::Cells::cells_before))]
pub fn total_of(records: &[u8]) -> u32
    ensures { result ≡ total (exponent records.now) }
{
    let mut n = 0;
    // Invariant: n is the number of cells of the slots before this one, at most 65,536 for each.
    for slot in 0..WINDOWS {
        n += slot_cells(records, slot);
    }
    n
}

// Where the cells of each slot begin, and the total, into the lent offsets.
pub fn lay_out_cells(records: &Records, offsets: &mut CellOffsets)
    ensures { offsets.new ≡ offsets_of (exponent records.now) }
{
    let mut t = 0;
    // Invariant: the offsets of the first s slots stand, and t is where the next one begins.
    for s in 0..WINDOWS {
        offsets[s] = t;
        t += slot_cells(records, s);
    }
    offsets[WINDOWS] = t;
}
