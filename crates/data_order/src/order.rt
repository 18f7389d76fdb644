// The byte-order rule: order 1 moves the cells and order 2 reverses the bytes, and no order does
// both. 4 less the width is 3, 2 or 0, so that one XOR serves all widths.
ghost use Rattle.std.specs.Prelude.{◌≡◌};
ghost use Rattle.numbers.specs.Numbers.{bytes};
ghost use Rattle.data_order.specs.Orders.{cell_distance, ordered};

use numbers::number::{Width, bytes_by_shift, reversed};

// The byte orders that differ from order 0; 15 does not.
const SWAPPED_PLACES: u8 = 1;

pub const REVERSED_BYTES: u8 = 2;

// Where the cells for a distance stand.
pub fn cell_distance(order: u8, width: Width, distance: u32) -> u32
    ensures { result ≡ cell_distance order (bytes width) distance }
{
    if order != SWAPPED_PLACES {
        return distance;
    }
    distance ^ (4 - bytes_by_shift(width))
}

// A value as the cells hold it, and back.
pub fn ordered(order: u8, width: Width, value: u32) -> u32
    ensures { result ≡ ordered order (bytes width) value }
{
    if order != REVERSED_BYTES {
        return value;
    }
    reversed(value, width)
}
