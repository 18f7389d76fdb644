// Data calls: the cells of an access are worked out, or the check that fails, and then read or
// written. An address is named in a call edition.
ghost use Rattle.std.specs.Prelude.{◌≡◌};
ghost use Rattle.numbers.specs.Numbers.{bytes};
ghost use Rattle.board.specs.Spaces.{space_number};
ghost use Rattle.data_access.specs.Data.{read_data, fast_read_data, data_written, write_data};

use crate::stored::{put_value, value_at};
use board::read::{FastRead, Read, fast_of};
use board::status::Status;
use data_cells::target::cell_target;
use data_window::map::DataMap;
use data_window::named::NamedAddress;

// Reads a number of a width in a window.
pub fn read_data(map: DataMap<'_>, cells: &[u8], at: NamedAddress) -> Read
    ensures { result ≡ read_data (bytes at.width)
        map.entry.header.now map.entry.records.now map.entry.windows.now map.entry.offsets.now
        cells.now (space_number at.space) at.handle at.address }
{
    let target = cell_target(map, cells.len(), at)?;
    Ok(value_at(cells, target, at.width))
}

// The same, with a fault flag in place of the refusal.
pub fn fast_read_data(map: DataMap<'_>, cells: &[u8], at: NamedAddress) -> FastRead
    ensures { result ≡ fast_read_data (bytes at.width)
        map.entry.header.now map.entry.records.now map.entry.windows.now map.entry.offsets.now
        cells.now (space_number at.space) at.handle at.address }
{
    fast_of(at.width, read_data(map, cells, at))
}

// Writes the low bytes of a value in a window, so that the same read gives them back.
pub fn write_data(map: DataMap<'_>, cells: &mut [u8], at: NamedAddress, value: u32) -> Status
    ensures { data_written result cells.new
        ≡ write_data (bytes at.width)
        map.entry.header.now map.entry.records.now map.entry.windows.now map.entry.offsets.now
        cells.old (space_number at.space) at.handle at.address value }
{
    let target = cell_target(map, cells.len(), at)?;
    put_value(cells, target, at.width, value);
    Ok(())
}
