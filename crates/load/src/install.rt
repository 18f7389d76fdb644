// What a load takes from an accepted image: header, records and offsets.
ghost use Rattle.std.specs.Prelude.{◌≡◌, ◌≤◌, length};
ghost use Rattle.board.specs.Layout.{functions_max};
ghost use Rattle.image_layout.specs.Image.{image_size, count_of, records_of};
ghost use Rattle.load.specs.Load.{padded};
ghost use Rattle.load.specs.Steps.{Installed};

use board::layout::{CellOffsets, FUNCTIONS, Header, RECORD, Records};
use cell_layout::cells::lay_out_cells;
use image_layout::layout::records_range;
use image_layout::trailer::trailer_of;

// The records of an accepted image, each kept as it stands there; zeros after the last.
fn copy_records(image: &[u8], count: u32, records: &mut Records)
    requires { (count ≡ count_of image.now)
        × ((count ≤ functions_max) × (image_size count ≤ length image.now)) }
    ensures { records.new ≡ padded (records_of image.now) }
{
    *records = [0; FUNCTIONS * RECORD];
    let range = records_range(image.len(), count);
    let loaded = &image[range.from..range.to];
    records[..loaded.len()].copy_from_slice(loaded);
}

// Header, records and offsets of an accepted image; all else follows from them.
pub(crate) fn install(
    image: &[u8],
    header: &mut Header,
    records: &mut Records,
    offsets: &mut CellOffsets,
)
    requires { (count_of image.now ≤ functions_max)
        × (image_size (count_of image.now) ≤ length image.now) }
    ensures { Installed image.now
        header.new records.new offsets.new }
{
    let count = trailer_of(image).count;
    *header = [count, 0, 0, 0];
    copy_records(image, count, records);
    lay_out_cells(records, offsets);
}
