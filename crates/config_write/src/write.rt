// Writing configuration registers through their masks. The window list depends on the command byte
// and the base registers alone, and is worked out anew only after a write there.
ghost use Rattle.std.specs.Prelude.{◌≡◌, ◌+◌, ◌<◌, ◌≤◌};
ghost use Rattle.board.specs.Layout.{functions_max, registers_each, mask_byte};
ghost use Rattle.numbers.specs.Numbers.{bytes};
ghost use Rattle.config_write.specs.Write.{
  clear_mask,
  clear_mask_byte,
  byte_written,
  registers_written,
  moves_windows,
  config_written,
  write_config,
};

use board::layout::{
    BASE_0, COMMAND, Header, MASKS, RECORD, REGISTER_BYTES, Records, Registers, Windows,
};
use board::status::Status;
use config_masked::byte::written;
use config_read::target::target_of;
use numbers::number::{Width, bytes};
use window_list::refresh::refresh;

// The two bytes of status.
const STATUS: u8 = 0x06;

const STATUS_HIGH: u8 = 0x07;

// The register after the base registers.
const BASES_END: u8 = 0x28;

// The bits of a register with a mask that are cleared by writing 1: those of status.
fn clear_mask(register: u8, mask: u8) -> u8
    ensures { result ≡ clear_mask register mask }
{
    match register {
        STATUS | STATUS_HIGH => mask,
        _ => 0,
    }
}

// Writes one byte through its masks. The function is one of the table, so no position is tested.
fn write_byte(records: &Records, registers: &mut Registers, function: u32, register: u8, new: u8)
    requires { function < functions_max }
    ensures { registers.new
        ≡ byte_written (mask_byte records.now function)
        (clear_mask_byte records.now function) function register new
        registers.old }
{
    let mask = records[RECORD * (function as usize) + (MASKS as usize + register as usize)];
    let clear = clear_mask(register, mask);
    let at = REGISTER_BYTES * (function as usize) + register as usize;
    registers[at] = written(mask, clear, registers[at], new);
}

// Writes the w low bytes of a value from a register on, least byte first.
fn write_bytes(
    records: &Records,
    registers: &mut Registers,
    function: u32,
    register: u8,
    w: u8,
    value: u32,
)
    requires { (function < functions_max) × (register + w ≤ registers_each) }
    ensures { registers.new
        ≡ registers_written w records.now function register value
        registers.old }
{
    let mut rest = value;
    // Invariant: writing w - i bytes of rest from register + i on gives what the call gives.
    for i in 0..w {
        write_byte(
            records,
            registers,
            function,
            register + i,
            (rest % 256) as u8,
        );
        rest /= 256;
    }
}

// Whether the w registers from a register on hold a byte that the window list depends on: the
// command byte or a base register's.
fn moves_windows(register: u8, w: u8) -> bool
    ensures { result ≡ moves_windows w register }
{
    let end = u32::from(register) + u32::from(w);
    ((register <= COMMAND) & (u32::from(COMMAND) < end))
        | ((register < BASES_END) & (u32::from(BASE_0) < end))
}

// Writes a number of a width, its low bytes least first, and then works out the window list anew
// where it depends on a byte written.
pub fn write_config(
    header: &Header,
    records: &Records,
    registers: &mut Registers,
    windows: &mut Windows,
    width: Width,
    handle: u32,
    register: u8,
    value: u32,
) -> Status
    ensures { config_written result registers.new windows.new
        ≡ write_config (bytes width) header.now records.now
        registers.old windows.old handle register value }
{
    let function = target_of(header, width, handle, register)?;
    let w = bytes(width);
    write_bytes(records, registers, function, register, w, value);
    if moves_windows(register, w) {
        refresh(header, records, registers, windows);
    }
    Ok(())
}
