// The sum of the bytes of records.
ghost use Rattle.std.specs.Prelude.{◌≡◌, ◌*◌, ◌≤◌, length, take};
ghost use Rattle.board.specs.Layout.{functions_max};
ghost use Rattle.image_layout.specs.Image.{image_record, sum};

use crate::layout::IMAGE_RECORD;
use board::layout::FUNCTIONS;

// The sum of bytes that are no more than the records of an image, so that 32 bits hold it.
#[tactic(auto, unfolding(crate::specs::Image::sum))]
fn sum_all(s: &[u8]) -> u32
    requires { length s.now ≤ functions_max * image_record }
    ensures { result ≡ sum s.now }
{
    s.iter().map(|b| u32::from(*b)).sum()
}

// The sum of the bytes of an image's records; no image has more records than are counted here.
#[tactic(auto, using(std::proofs::lemmas::List::take_min))]
pub fn sum_of(s: &[u8]) -> u32
    ensures { result ≡ sum (take (functions_max * image_record) s.now) }
{
    sum_all(&s[..(FUNCTIONS * IMAGE_RECORD).min(s.len())])
}
