// Searches and configuration calls for C. A width is a number here; another than 1, 2 or 4 is
// refused before all else.
ghost use Rattle.std.specs.Prelude.{◌≡◌};
ghost use Rattle.board.specs.Handles.{function_count};
ghost use Rattle.board.specs.Layout.{register_byte};
ghost use Rattle.call_edition.specs.Edition.{in_edition};
ghost use Rattle.search.specs.Search.{sought_devices, sought_classes, sought_number};
ghost use Rattle.board.specs.FromC.{width_from_c};
ghost use Rattle.bios.specs.Exports.{
  read_numbers,
  read_shown,
  c_read_config,
  fast_numbers,
  fast_shown,
  c_fast_read_config,
  config_numbers,
  config_shown,
  c_write_config,
};

use board::from_c::width_from_c;
use board::layout::{Header, Records, Registers, Windows};
use board::read::value_of;
use board::status::{CallRefusal, number_of};
use call::searches::{class_answer, device_answer};
use call_edition::edition::in_edition;
use config_read::read::{fast_read_config, read_config};
use config_write::write::write_config;

// The handle of the match with so many matches before it, or -2, -3 or -4; the ID and the class are
// named in a call edition.
#[unsafe(no_mangle)]
pub extern "C" fn bios_find_pci_device(
    header: &Header,
    registers: &Registers,
    id: u32,
    index: u32,
    edition: u32,
) -> i32
    ensures { result ≡ sought_number
        (sought_devices (in_edition id edition)
        (function_count header.now) (register_byte registers.now))
        index }
{
    let a = device_answer(header, registers, in_edition(id, edition), index);
    a.number
}

#[unsafe(no_mangle)]
pub extern "C" fn bios_find_pci_classcode(
    header: &Header,
    registers: &Registers,
    class: u32,
    index: u32,
    edition: u32,
) -> i32
    ensures { result ≡ sought_number
        (sought_classes (in_edition class edition)
        (function_count header.now) (register_byte registers.now))
        index }
{
    let a = class_answer(header, registers, in_edition(class, edition), index);
    a.number
}

// Reads a number of a width; the value, 0 where it is refused, goes to `value`.
#[unsafe(no_mangle)]
pub extern "C" fn bios_read_config(
    header: &Header,
    registers: &Registers,
    width: u32,
    handle: u32,
    register: u8,
    value: &mut u32,
) -> i32
    ensures { read_numbers result value.new
        ≡ read_shown (c_read_config (width_from_c width)
        header.now registers.now handle register) }
{
    let read = match width_from_c(width) {
        Some(width) => read_config(header, registers, width, handle, register),
        None => Err(CallRefusal::GeneralError),
    };
    *value = value_of(read);
    number_of(read).0
}

// Reads it fast: the value, and in `fault` 1 where it is refused.
#[unsafe(no_mangle)]
pub extern "C" fn bios_fast_read_config(
    header: &Header,
    registers: &Registers,
    width: u32,
    handle: u32,
    register: u8,
    fault: &mut u32,
) -> u32
    ensures { fast_numbers result fault.new
        ≡ fast_shown (c_fast_read_config
        (width_from_c width) header.now registers.now handle register) }
{
    match width_from_c(width) {
        Some(width) => {
            let read = fast_read_config(header, registers, width, handle, register);
            *fault = read.fault as u32;
            read.value
        }
        None => {
            *fault = 1;
            0xFFFFFFFF
        }
    }
}

// Writes the low bytes of a value.
#[unsafe(no_mangle)]
pub extern "C" fn bios_write_config(
    header: &Header,
    records: &Records,
    registers: &mut Registers,
    windows: &mut Windows,
    width: u32,
    handle: u32,
    register: u8,
    value: u32,
) -> i32
    ensures { config_numbers result registers.new windows.new
        ≡ config_shown (c_write_config (width_from_c width)
        header.now records.now registers.old windows.old
        handle register value) }
{
    match width_from_c(width) {
        Some(width) => number_of(write_config(
            header, records, registers, windows, width, handle, register, value,
        ))
        .0,
        None => CallRefusal::GeneralError.number().0,
    }
}
