// The lengths of an image's parts, and where they stand: all is found from the end, as notes of any
// length may come before the records.
ghost use Rattle.std.specs.Prelude.{◌≡◌};
ghost use Rattle.image_layout.specs.Image.{image_size, records_range};

// Bytes of a record as an image has it; how long a kept one is, the board says.
pub const IMAGE_RECORD: usize = 544;

// Bytes of the trailer.
pub const TRAILER: usize = 12;

// A part of an image: where it begins, and the first position past it.
#[derive(Clone, Copy)]
pub struct Range {
    pub from: usize,
    pub to: usize,
}

// Bytes of count records and the trailer.
pub fn image_size(count: u32) -> usize
    ensures { result ≡ image_size count }
{
    IMAGE_RECORD * count as usize + TRAILER
}

// Where the records of an image stand that is so long and has so many.
pub fn records_range(long: usize, count: u32) -> Range
    ensures { result ≡ records_range long count }
{
    let from = long.saturating_sub(image_size(count));
    Range {
        from: from,
        to: from + IMAGE_RECORD * count as usize,
    }
}
