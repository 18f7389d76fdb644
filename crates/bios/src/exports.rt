// Calls for C: numbers and lent memory in, numbers out. A slice is a pointer and a length, an array
// or room for a number is a pointer.
ghost use Rattle.std.specs.Prelude.{◌≡◌, pos};
ghost use Rattle.board.specs.Parts.{parts};
ghost use Rattle.window.specs.Kept.{unpacked};
ghost use Rattle.image_check.specs.Check.{checked};
ghost use Rattle.reset.specs.Reset.{reset};
ghost use Rattle.load.specs.Load.{load};
ghost use Rattle.image_writer.specs.Write.{write_image};
ghost use Rattle.bios.specs.Exports.{
  verdict_numbers,
  verdict_shown,
  load_numbers,
  load_shown,
  reset_numbers,
  reset_shown,
  left,
  out_left,
  shown,
  shown_window,
};

use board::layout::{CellOffsets, Header, Hooks, Records, Registers, Used, Windows};
use board::parts::Board;
use board::status::number_of;
use call::answer::{Values, of_listing};
use image_check::check::check_image;
use image_refusals::verdict::{verdict_number, verdict_place};
use image_writer::write::write_image;
use load::calls::load;
use reset::reset;
use window_listing::listing::list_window;

// The number of the first refusal of an image with so many cells, 0 for none; the place of a bad
// record, else 0, goes to `place`.
#[unsafe(no_mangle)]
pub extern "C" fn bios_check_image(image: &[u8], room: usize, place: &mut u32) -> i32
    ensures { verdict_numbers result place.new ≡ verdict_shown (checked image.now room) }
{
    let verdict = check_image(image, room);
    *place = verdict_place(verdict);
    verdict_number(verdict)
}

// Loads an image; number and place as above.
#[unsafe(no_mangle)]
pub extern "C" fn bios_load(
    image: &[u8],
    header: &mut Header,
    records: &mut Records,
    registers: &mut Registers,
    windows: &mut Windows,
    offsets: &mut CellOffsets,
    hooks: &mut Hooks,
    used: &mut Used,
    cells: &mut [u8],
    place: &mut u32,
) -> i32
    ensures { load_numbers result place.new
        (parts header.new records.new registers.new
        windows.new offsets.new
        hooks.new used.new cells.new)
        ≡ load_shown (load
        (parts header.old records.old registers.old
        windows.old offsets.old
        hooks.old used.old cells.old)
        image.now) }
{
    let mut board = Board {
        header: header,
        records: records,
        registers: registers,
        windows: windows,
        offsets: offsets,
        hooks: hooks,
        used: used,
        cells: cells,
    };
    let verdict = load(image, &mut board);
    *place = verdict_place(verdict);
    verdict_number(verdict)
}

// Resets a board.
#[unsafe(no_mangle)]
pub extern "C" fn bios_reset(
    header: &Header,
    records: &Records,
    registers: &mut Registers,
    windows: &mut Windows,
    offsets: &CellOffsets,
    hooks: &mut Hooks,
    used: &mut Used,
    cells: &mut [u8],
) -> i32
    ensures { reset_numbers result
        (parts header.now records.now registers.new
        windows.new offsets.now
        hooks.new used.new cells.new)
        ≡ reset_shown (reset
        (parts header.now records.now registers.old
        windows.old offsets.now
        hooks.old used.old cells.old)) }
{
    number_of(reset(
        header, records, registers, windows, offsets, hooks, used, cells,
    ))
    .0
}

// Writes the loaded board as an image; the number of the refusal, 0 for none.
#[unsafe(no_mangle)]
pub extern "C" fn bios_write_image(header: &Header, records: &Records, out: &mut [u8]) -> u32
    ensures { left (pos result) out.new
        ≡ out_left (write_image header.now records.now out.old) }
{
    verdict_number(write_image(header, records, out)).cast_unsigned()
}

// Window n of the list, from 0: its number, and its values or zeros.
#[unsafe(no_mangle)]
pub extern "C" fn bios_list_window(windows: &Windows, n: u32, values: &mut Values) -> i32
    ensures { shown result values.new
        ≡ shown_window (unpacked windows.now) n }
{
    let a = of_listing(list_window(windows, n));
    let v = a.values;
    *values = v;
    a.number
}
