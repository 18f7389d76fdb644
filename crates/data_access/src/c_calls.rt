// Data calls as C asks for them, with numbers for widths and spaces. They do not call those of
// `data` but are put together from the same parts: the bus address by the edition (`bus_of`), the
// window there (`find_window`), its cells (`cell_target_of`) and the value in them. The compiler then
// moves all of them into the function for C; a call of `read_data`, `cell_target` or `find_named`
// would stay one. `find_window`, `c_access` and `c_read_data` have more than one caller, so that it is
// told to move them too. The edition is tested before all else, and then the width; from there on the
// definitions are those of `data`.
ghost use Rattle.std.specs.Prelude.{◌≡◌};
ghost use Rattle.board.specs.Spaces.{space_number};
ghost use Rattle.board.specs.FromC.{width_from_c, space_from_c};
ghost use Rattle.data_access.specs.Data.{data_written};
ghost use Rattle.call_edition.specs.Edition.{in_edition};
ghost use Rattle.data_access.specs.CCalls.{
  c_access,
  c_read_data,
  no_fast_read,
  c_fast_of,
  c_fast_read_data,
  c_write_data,
};

use crate::stored::{put_value, value_at};
use board::from_c::{space_from_c, width_from_c};
use board::handle::place_of_handle;
use board::read::{FastRead, Read, refused_fast};
use board::status::{CallRefusal, Status};
use call_edition::edition::{InEdition, bus_of, in_edition};
use data_cells::target::{Cells, cell_target_of};
use data_window::find::{data_address, find_window};
use data_window::map::DataMap;
use numbers::number::Width;

// What a call that is not refused is for.
#[derive(Clone, Copy)]
struct Access {
    width: Width,
    target: Cells,
}

// The checks of all three calls.
#[inline(always)]
fn c_access(
    map: DataMap<'_>,
    room: usize,
    io: u32,
    width: u32,
    handle: u32,
    address: InEdition,
) -> Result<Access, CallRefusal>
    ensures { result ≡ c_access (width_from_c width)
        map.entry.header.now map.entry.records.now map.entry.windows.now map.entry.offsets.now
        room (space_number (space_from_c io)) handle address }
{
    let bus = bus_of(map.records, handle, address).ok_or(CallRefusal::FuncNotSupported)?;
    let width = width_from_c(width).ok_or(CallRefusal::GeneralError)?;
    let at = data_address(space_from_c(io), width, handle, bus);
    let finding = find_window(map.header, map.records, map.windows, map.offsets, room, at);
    let function = place_of_handle(handle);
    let target = cell_target_of(map, room, width, function, finding)?;
    Ok(Access {
        width: width,
        target: target,
    })
}

// Reads a number of a width in a window.
#[inline(always)]
pub fn c_read_data(
    map: DataMap<'_>,
    cells: &[u8],
    io: u32,
    width: u32,
    handle: u32,
    address: u32,
    edition: u32,
) -> Read
    ensures { result ≡ c_read_data (width_from_c width)
        map.entry.header.now map.entry.records.now map.entry.windows.now map.entry.offsets.now
        cells.now (space_number (space_from_c io)) handle
        (in_edition address edition) }
{
    let named = in_edition(address, edition);
    let a = c_access(map, cells.len(), io, width, handle, named)?;
    Ok(value_at(cells, a.target, a.width))
}

// A fast read that is refused: all ones of its width, of 4 bytes where it is none.
fn no_fast_read(width: u32) -> FastRead
    ensures { result ≡ no_fast_read (width_from_c width) }
{
    match width_from_c(width) {
        Some(width) => refused_fast(width),
        None => FastRead {
            value: 0xFFFFFFFF,
            fault: true,
        },
    }
}

// What a fast read hands back of a read; where that is accepted the width is not asked for again.
fn c_fast_of(width: u32, read: Read) -> FastRead
    ensures { result ≡ c_fast_of (width_from_c width) read }
{
    match read {
        Ok(value) => FastRead {
            value: value,
            fault: false,
        },
        Err(_) => no_fast_read(width),
    }
}

// The same, with a fault flag in place of the refusal.
pub fn c_fast_read_data(
    map: DataMap<'_>,
    cells: &[u8],
    io: u32,
    width: u32,
    handle: u32,
    address: u32,
    edition: u32,
) -> FastRead
    ensures { result ≡ c_fast_read_data (width_from_c width)
        map.entry.header.now map.entry.records.now map.entry.windows.now map.entry.offsets.now
        cells.now (space_number (space_from_c io)) handle
        (in_edition address edition) }
{
    let read = c_read_data(map, cells, io, width, handle, address, edition);
    c_fast_of(width, read)
}

// Writes the low bytes of a value in a window.
pub fn c_write_data(
    map: DataMap<'_>,
    cells: &mut [u8],
    io: u32,
    width: u32,
    handle: u32,
    address: u32,
    value: u32,
    edition: u32,
) -> Status
    ensures { data_written result cells.new
        ≡ c_write_data (width_from_c width)
        map.entry.header.now map.entry.records.now map.entry.windows.now map.entry.offsets.now
        cells.old (space_number (space_from_c io)) handle
        (in_edition address edition) value }
{
    let named = in_edition(address, edition);
    let room = cells.len();
    let a = c_access(map, room, io, width, handle, named)?;
    put_value(cells, a.target, a.width, value);
    Ok(())
}
