// The parts of a board that the caller lends: one name for each length and each position, and a
// total reader for each kind of byte and number. They are arrays, so that a call copies
// nothing and C can hand them over.
ghost use Rattle.std.specs.Prelude.{◌≡◌};
ghost use Rattle.board.specs.Layout.{
  record_byte,
  exponent,
  byte_order,
  widths,
  offset,
  dma_offset,
  entry_byte,
  register_byte,
  base_register,
};
ghost use Rattle.numbers.specs.Numbers.{bytes, little, big};

use numbers::number::{Width, big_at, byte_at, little_at};

// Functions of a board, at most.
pub const FUNCTIONS: usize = 16;

// Base registers of a function, and windows of a board at most.
pub const BASES: usize = 6;

pub const WINDOWS: usize = FUNCTIONS * BASES;

// Bytes of a record as the lent part `records` keeps it, and where its parts begin after the 256
// reset values: masks, window entries of ENTRY bytes each, offset, dmaoffset.
pub const RECORD: usize = 544;

pub const MASKS: u32 = 256;

pub const ENTRIES: u32 = 512;

pub const ENTRY: u32 = 4;

pub const OFFSET: u32 = 536;

pub const DMA_OFFSET: u32 = 540;

// Register bytes of a function, and the registers that have a meaning here.
pub const REGISTER_BYTES: usize = 256;

pub const COMMAND: u8 = 0x04;

pub const BASE_0: u8 = 0x10;

// How many numbers the header, a hook and a used mark have.
pub const HEADER: usize = 4;

pub const HOOK: usize = 3;

pub const MARK: usize = 2;

// The count of functions, above 16 read as 16; the other numbers have no meaning yet.
pub type Header = [u32; HEADER];

// The loaded records.
pub type Records = [u8; FUNCTIONS * RECORD];

// The current registers.
pub type Registers = [u8; FUNCTIONS * REGISTER_BYTES];

// The kept window list: a number a window, zeros after the last.
pub type Windows = [u64; WINDOWS];

// Where the cells of each slot begin, the total last. Base register b of the function at place i is
// slot 6 i + b.
pub type CellOffsets = [u32; WINDOWS + 1];

// Handle, handler and parameter of each hook; zeros after the last.
pub type Hooks = [u32; HOOK * FUNCTIONS];

// Used status and call-back address of each function.
pub type Used = [u32; MARK * FUNCTIONS];

// A byte of the record of the function at a place, from 0.
pub fn record_byte(records: &Records, function: u32, at: u32) -> u8
    ensures { result ≡ record_byte records.now function at }
{
    byte_at(records, RECORD * (function as usize) + at as usize)
}

// A field of the entry of a base register.
fn entry_byte(records: &Records, function: u32, base: u8, field: u8) -> u8
    ensures { result ≡ entry_byte records.now function base field }
{
    record_byte(
        records,
        function,
        ENTRIES + ENTRY * base as u32 + field as u32,
    )
}

// The length exponent of a base register's window.
pub fn exponent(records: &Records, function: u32, base: u8) -> u8
    ensures { result ≡ exponent records.now function base }
{
    entry_byte(records, function, base, 0)
}

// The byte order of a base register's window.
pub fn byte_order(records: &Records, function: u32, base: u8) -> u8
    ensures { result ≡ byte_order records.now function base }
{
    entry_byte(records, function, base, 1)
}

// The widths that a base register's window offers.
pub fn widths(records: &Records, function: u32, base: u8) -> u8
    ensures { result ≡ widths records.now function base }
{
    entry_byte(records, function, base, 2)
}

// A big-endian longword of a record.
fn record_long(records: &Records, function: u32, at: u32) -> u32
    ensures { result ≡ big 4 (record_byte records.now function) at }
{
    big_at(
        records,
        RECORD * (function as usize) + at as usize,
        Width::Long,
    )
}

// What is added to a bus address to give the CPU address.
pub fn offset(records: &Records, function: u32) -> u32
    ensures { result ≡ offset records.now function }
{
    record_long(records, function, OFFSET)
}

// The dmaoffset, which descriptors hand on.
pub fn dma_offset(records: &Records, function: u32) -> u32
    ensures { result ≡ dma_offset records.now function }
{
    record_long(records, function, DMA_OFFSET)
}

// A register of the function at a place, from 0.
pub fn register_byte(registers: &Registers, function: u32, register: u8) -> u8
    ensures { result ≡ register_byte registers.now function register }
{
    byte_at(
        registers,
        REGISTER_BYTES * (function as usize) + register as usize,
    )
}

// The number at a register of a function, least byte first.
fn number_of_registers(registers: &Registers, function: u32, at: u32, width: Width) -> u32
    ensures { result
        ≡ little (bytes width) (register_byte registers.now function) at }
{
    little_at(
        registers,
        REGISTER_BYTES * (function as usize) + at as usize,
        width,
    )
}

// The registers of a width from a register on, as one number.
pub fn register_number(registers: &Registers, function: u32, register: u8, width: Width) -> u32
    ensures { result
        ≡ little (bytes width) (register_byte registers.now function) register }
{
    number_of_registers(registers, function, register as u32, width)
}

// The value of a base register.
pub fn base_register(registers: &Registers, function: u32, base: u8) -> u32
    ensures { result ≡ base_register (register_byte registers.now function) base }
{
    number_of_registers(
        registers,
        function,
        BASE_0 as u32 + 4 * base as u32,
        Width::Long,
    )
}
