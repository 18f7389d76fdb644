// Reading configuration registers, plainly and fast.
ghost use Rattle.std.specs.Prelude.{◌≡◌};
ghost use Rattle.numbers.specs.Numbers.{bytes};
ghost use Rattle.config_read.specs.Read.{read_config, fast_read_config};

use crate::target::target_of;
use board::layout::{Header, Registers, register_number};
use board::read::{FastRead, Read, fast_of};
use numbers::number::Width;

// Reads a number of a width, least byte first.
pub fn read_config(
    header: &Header,
    registers: &Registers,
    width: Width,
    handle: u32,
    register: u8,
) -> Read
    ensures { result
        ≡ read_config (bytes width) header.now registers.now
        handle register }
{
    let function = target_of(header, width, handle, register)?;
    Ok(register_number(registers, function, register, width))
}

// The same, with a fault flag in place of the refusal.
pub fn fast_read_config(
    header: &Header,
    registers: &Registers,
    width: Width,
    handle: u32,
    register: u8,
) -> FastRead
    ensures { result
        ≡ fast_read_config (bytes width) header.now registers.now
        handle register }
{
    fast_of(
        width,
        read_config(header, registers, width, handle, register),
    )
}
