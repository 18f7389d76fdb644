// Data calls and address conversions for C. The address of a data call is named in a call edition,
// and a width is a number here: another than 1, 2 or 4 is refused after an unknown edition and
// before all else.
ghost use Rattle.std.specs.Prelude.{◌≡◌};
ghost use Rattle.call_edition.specs.Edition.{in_edition};
ghost use Rattle.address_convert.specs.Convert.{bus_to_cpu, cpu_to_bus};
ghost use Rattle.data_access.specs.CCalls.{c_read_data, c_fast_read_data, c_write_data};
ghost use Rattle.board.specs.Addresses.{bus, cpu};
ghost use Rattle.board.specs.Spaces.{space_number};
ghost use Rattle.board.specs.FromC.{width_from_c, space_from_c};
ghost use Rattle.bios.specs.Exports.{
  read_numbers,
  read_shown,
  left,
  cells_left,
  fast_numbers,
  fast_shown,
  to_cpu_shown,
  to_bus_shown,
};

use address_convert::convert::{bus_to_cpu, cpu_to_bus};
use board::address::{BusAddress, CpuAddress};
use board::layout::{CellOffsets, Header, Records, Windows};
use board::read::value_of;
use board::status::number_of;
use data_access::c_calls::{c_fast_read_data, c_read_data, c_write_data};
use data_window::map::DataMap;

// Reads a number of a width in a window; the value, 0 where it is refused, goes to `value`.
#[unsafe(no_mangle)]
pub extern "C" fn bios_read_data(
    header: &Header,
    records: &Records,
    windows: &Windows,
    offsets: &CellOffsets,
    cells: &[u8],
    io: u32,
    width: u32,
    handle: u32,
    address: u32,
    edition: u32,
    value: &mut u32,
) -> i32
    ensures { read_numbers result value.new
        ≡ read_shown (c_read_data (width_from_c width)
        header.now records.now windows.now offsets.now
        cells.now (space_number (space_from_c io)) handle
        (in_edition address edition)) }
{
    let map = DataMap {
        header: header,
        records: records,
        windows: windows,
        offsets: offsets,
    };
    let read = c_read_data(map, cells, io, width, handle, address, edition);
    *value = value_of(read);
    number_of(read).0
}

// Reads it fast: the value, and in `fault` 1 where it is refused.
#[unsafe(no_mangle)]
pub extern "C" fn bios_fast_read_data(
    header: &Header,
    records: &Records,
    windows: &Windows,
    offsets: &CellOffsets,
    cells: &[u8],
    io: u32,
    width: u32,
    handle: u32,
    address: u32,
    edition: u32,
    fault: &mut u32,
) -> u32
    ensures { fast_numbers result fault.new
        ≡ fast_shown (c_fast_read_data (width_from_c width)
        header.now records.now windows.now offsets.now
        cells.now (space_number (space_from_c io)) handle
        (in_edition address edition)) }
{
    let map = DataMap {
        header: header,
        records: records,
        windows: windows,
        offsets: offsets,
    };
    let read = c_fast_read_data(map, cells, io, width, handle, address, edition);
    *fault = read.fault as u32;
    read.value
}

// Writes the low bytes of a value in a window.
#[unsafe(no_mangle)]
pub extern "C" fn bios_write_data(
    header: &Header,
    records: &Records,
    windows: &Windows,
    offsets: &CellOffsets,
    cells: &mut [u8],
    io: u32,
    width: u32,
    handle: u32,
    address: u32,
    value: u32,
    edition: u32,
) -> i32
    ensures { left result cells.new
        ≡ cells_left (c_write_data (width_from_c width)
        header.now records.now windows.now offsets.now
        cells.old (space_number (space_from_c io)) handle
        (in_edition address edition) value) }
{
    let map = DataMap {
        header: header,
        records: records,
        windows: windows,
        offsets: offsets,
    };
    number_of(c_write_data(map, cells, io, width, handle, address, value, edition)).0
}

// Where the CPU sees a bus address of a function; 0 where it is refused.
#[unsafe(no_mangle)]
pub extern "C" fn bios_bus_to_cpu(
    header: &Header,
    records: &Records,
    handle: u32,
    address: u32,
    cpu: &mut u32,
) -> i32
    ensures { read_numbers result cpu.new
        ≡ to_cpu_shown (bus_to_cpu header.now records.now handle (bus address)) }
{
    let to = bus_to_cpu(header, records, handle, BusAddress::of(address));
    *cpu = match to {
        Ok(address) => address.number(),
        Err(_) => 0,
    };
    number_of(to).0
}

// The bus address that the CPU sees at an address; 0 where it is refused.
#[unsafe(no_mangle)]
pub extern "C" fn bios_cpu_to_bus(
    header: &Header,
    records: &Records,
    handle: u32,
    address: u32,
    bus: &mut u32,
) -> i32
    ensures { read_numbers result bus.new
        ≡ to_bus_shown (cpu_to_bus header.now records.now handle (cpu address)) }
{
    let to = cpu_to_bus(header, records, handle, CpuAddress::of(address));
    *bus = match to {
        Ok(address) => address.number(),
        Err(_) => 0,
    };
    number_of(to).0
}
