// Handles: the function at place i has handle i + 1, and every other number is a bad handle.
ghost use Rattle.std.specs.Prelude.{◌≡◌, ◌-◌};
ghost use Rattle.board.specs.Handles.{function_count, is_handle, place_of_handle};

use crate::layout::{FUNCTIONS, Header};

// The functions there are: the kept count, above 16 read as 16.
pub fn function_count(header: &Header) -> u32
    ensures { result ≡ function_count header.now }
{
    header[0].min(FUNCTIONS as u32)
}

// Whether a function has this handle.
pub fn is_handle(header: &Header, handle: u32) -> bool
    ensures { result ≡ is_handle header.now handle }
{
    let count = function_count(header);
    (1 <= handle) & (handle <= count)
}

// The place of a handle's function; of 0, which is no handle, place 0.
pub fn place(handle: u32) -> u32
    ensures { result ≡ handle - 1 }
{
    handle.saturating_sub(1)
}

// The same without a test, for data calls; of 0 the largest number. docs/DECISIONS.md says what the
// test costs them.
pub fn place_of_handle(handle: u32) -> u32
    ensures { result ≡ place_of_handle handle }
{
    handle.wrapping_sub(1)
}
