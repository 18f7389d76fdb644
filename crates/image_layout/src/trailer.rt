// The trailer's numbers, read so that an image too short to have them needs no test first.
ghost use Rattle.std.specs.Prelude.{◌≡◌};
ghost use Rattle.numbers.specs.Numbers.{bytes};
ghost use Rattle.image_layout.specs.Image.{back, trailer_of};

use numbers::number::{Width, big_at};

// The trailer's numbers, in their order.
#[derive(Clone, Copy)]
pub struct Trailer {
    pub distance: u32,
    pub count: u32,
    pub edition: u32,
    pub sum: u32,
}

// The number at a distance back from the end.
fn number_back(image: &[u8], distance: usize, width: Width) -> u32
    ensures { result ≡ back (bytes width) image.now distance }
{
    big_at(image, image.len().saturating_sub(distance), width)
}

// The trailer of an image: its last 12 bytes.
pub fn trailer_of(image: &[u8]) -> Trailer
    ensures { result ≡ trailer_of image.now }
{
    Trailer {
        distance: number_back(image, 12, Width::Long),
        count: number_back(image, 8, Width::Word),
        edition: number_back(image, 6, Width::Word),
        sum: number_back(image, 4, Width::Long),
    }
}
