// Load: an image is checked, and the board of an accepted one is made. A load is a reset from new
// records: header, records and offsets come from the image, and all else follows as on a reset. The
// check comes before the first store, so that a refused image leaves everything as it was.
ghost use Rattle.std.specs.Prelude.{◌≡◌};
ghost use Rattle.board.specs.Parts.{parts_lent, SameLoans};
ghost use Rattle.load.specs.Load.{load_outcome, load, load_any_length};

use crate::install::install;
use board::parts::Board;
use image_check::check::{IMAGE, check_any_length};
use image_refusals::verdict::{ImageRefusal, Verdict};
use reset::reset;

// A load without the upper length, for an image that comes in portions.
pub fn load_any_length(image: &[u8], board: &mut Board<'_>) -> Verdict
    ensures loans { SameLoans board.old board.new }
    ensures outcome { load_outcome result (parts_lent board.new)
        ≡ load_any_length (parts_lent board.old) image.now }
{
    check_any_length(image, board.cells.len())?;
    install(image, board.header, board.records, board.offsets);
    // The check has found the cells to suffice, so the reset is not refused.
    let _ = reset(
        board.header,
        board.records,
        board.registers,
        board.windows,
        board.offsets,
        board.hooks,
        board.used,
        board.cells,
    );
    Ok(())
}

// The board of an image; a refused image leaves everything as it was.
pub fn load(image: &[u8], board: &mut Board<'_>) -> Verdict
    ensures loans { SameLoans board.old board.new }
    ensures outcome { load_outcome result (parts_lent board.new)
        ≡ load (parts_lent board.old) image.now }
{
    if IMAGE < image.len() {
        return Err(ImageRefusal::Length);
    }
    load_any_length(image, board)
}
