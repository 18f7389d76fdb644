// Where the cells of an access stand: where those of its window's slot begin, and from there the
// distance that the byte order gives.
ghost use Rattle.std.specs.Prelude.{◌≡◌, get_or, ◌+◌, ◌*◌};
ghost use Rattle.board.specs.Layout.{bases, byte_order};
ghost use Rattle.numbers.specs.Numbers.{bytes};
ghost use Rattle.board.specs.Spaces.{space_number};
ghost use Rattle.data_cells.specs.Cells.{cells_at, cell_target_in, cell_target};

use board::handle::place_of_handle;
use board::layout::{BASES, byte_order};
use data_order::order::cell_distance;
use data_window::find::{Finding, Found};
use data_window::map::DataMap;
use data_window::named::{NamedAddress, find_named};
use data_window::refusal::DataRefusal;
use numbers::number::{Width, bytes_by_shift, item_or};

// The first cell and the byte order of an access, all of whose cells are in the buffer.
#[derive(Clone, Copy)]
pub struct Cells {
    pub at: usize,
    pub order: u8,
}

// The cells of an access, or the check that failed.
pub type CellTarget = Result<Cells, DataRefusal>;

// The cells for a distance into the window that is found.
fn cells_at(map: DataMap<'_>, room: usize, width: Width, function: u32, found: Found) -> CellTarget
    ensures { result ≡ cells_at
        (get_or map.entry.offsets.now (bases * function + found.base) 0)
        (byte_order map.entry.records.now function found.base)
        room (bytes width) found.distance }
{
    let offsets = map.offsets;
    let order = byte_order(map.records, function, found.base);
    let slot = BASES * (function as usize) + usize::from(found.base);
    let begin = item_or(offsets, slot, 0);
    let at = begin as usize + cell_distance(order, width, found.distance) as usize;
    if room < at + bytes_by_shift(width) as usize {
        return Err(DataRefusal::PastBuffer);
    }
    Ok(Cells {
        at: at,
        order: order,
    })
}

// The cells for what was found in the windows of the function at a place, from 0.
#[tactic(auto, unfolding(crate::specs::Cells::cell_target_of))]
pub fn cell_target_of(
    map: DataMap<'_>,
    room: usize,
    width: Width,
    function: u32,
    finding: Finding,
) -> CellTarget
    ensures { result ≡ cell_target_in map.entry.records.now map.entry.offsets.now
        room (bytes width) function finding }
{
    cells_at(map, room, width, function, finding?)
}

// The cells that an access is for.
pub fn cell_target(map: DataMap<'_>, room: usize, at: NamedAddress) -> CellTarget
    ensures { result ≡ cell_target (bytes at.width)
        map.entry.header.now map.entry.records.now map.entry.windows.now map.entry.offsets.now
        room (space_number at.space) at.handle at.address }
{
    let finding = find_named(map, room, at);
    let function = place_of_handle(at.handle);
    cell_target_of(map, room, at.width, function, finding)
}
