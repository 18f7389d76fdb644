// Widths and spaces as C hands them over: numbers.
ghost use Rattle.std.specs.Prelude.{◌≡◌};
ghost use Rattle.board.specs.FromC.{width_from_c, space_from_c};

use crate::space::Space;
use numbers::number::Width;

// The width of so many bytes; every other number is refused.
pub fn width_from_c(width: u32) -> Option<Width>
    ensures { result ≡ width_from_c width }
{
    match width {
        1 => Some(Width::Byte),
        2 => Some(Width::Word),
        4 => Some(Width::Long),
        _ => None,
    }
}

// 0 is memory, every other number I/O.
pub fn space_from_c(io: u32) -> Space
    ensures { result ≡ space_from_c io }
{
    if io == 0 {
        return Space::Memory;
    }
    Space::Io
}
