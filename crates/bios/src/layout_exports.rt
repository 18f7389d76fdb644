// The bytes of each lent part for C, which compares them with its own declaration of a board.
ghost use Rattle.std.specs.Prelude.{◌≡◌};
ghost use Rattle.bios.specs.Layout.{part_bytes};

use board::layout::{FUNCTIONS, HEADER, HOOK, MARK, RECORD, REGISTER_BYTES, WINDOWS};
use numbers::number::item_or;

// The bytes of a part, by the parts' order in every call that is lent them all; 0 past the last.
#[unsafe(no_mangle)]
pub extern "C" fn bios_part_bytes(part: u32) -> u64
    ensures { result ≡ part_bytes part }
{
    let parts: [u64; 7] = [
        (4 * HEADER) as u64,
        (FUNCTIONS * RECORD) as u64,
        (FUNCTIONS * REGISTER_BYTES) as u64,
        (8 * WINDOWS) as u64,
        (4 * (WINDOWS + 1)) as u64,
        (4 * (HOOK * FUNCTIONS)) as u64,
        (4 * (MARK * FUNCTIONS)) as u64,
    ];
    item_or(&parts, part as usize, 0)
}
