// The writer: the loaded board as an image without notes. The loaded records are written, so that
// later writes to registers do not show in the image.
ghost use Rattle.std.specs.Prelude.{◌≡◌, ◌*◌, ◌≤◌, ◌++◌, length, drop};
ghost use Rattle.board.specs.Layout.{functions_max, record_size};
ghost use Rattle.image_layout.specs.Image.{image_size, trailer, image_of};
ghost use Rattle.image_writer.specs.Write.{writer_outcome, write_image};

use board::handle::function_count;
use board::layout::{Header, RECORD, Records};
use image_layout::layout::{TRAILER, image_size};
use image_layout::sum::sum_of;
use image_refusals::verdict::{ImageRefusal, Verdict};
use numbers::number::{Width, put_big};

// The trailer of count records with this sum.
#[tactic(auto, unfolding(numbers::specs::Tables::table_from))]
fn trailer(count: u32, sum: u32) -> [u8; TRAILER]
    requires { count ≤ functions_max }
    ensures { result ≡ trailer count sum }
{
    let mut t = [0; TRAILER];
    put_big(&mut t, 0, Width::Long, image_size(count) as u32);
    put_big(&mut t, 4, Width::Word, count);
    put_big(&mut t, 6, Width::Word, 1);
    put_big(&mut t, 8, Width::Long, sum);
    t
}

// An image at the front of the output: the kept records, which an image has as they are, and the
// trailer where they end there.
fn put_image(records: &[u8], count: u32, out: &mut [u8])
    requires { (count ≤ functions_max)
        × ((length records.now ≡ functions_max * record_size)
        × (image_size count ≤ length out.old)) }
    ensures { out.new
        ≡ image_of count records.now ++ drop (image_size count) out.old }
{
    let kept = &records[..RECORD * count as usize];
    let end = kept.len();
    out[..end].copy_from_slice(kept);
    out[end..end + TRAILER].copy_from_slice(&trailer(count, sum_of(kept)));
}

// The loaded board as an image; refused where the output is too short, then for an empty board.
#[tactic(auto, unfolding(crate::specs::Write::write_image))]
pub fn write_image(header: &Header, records: &Records, out: &mut [u8]) -> Verdict
    ensures { writer_outcome result out.new
        ≡ write_image header.now records.now out.old }
{
    let count = function_count(header);
    let size = image_size(count);
    if out.len() < size {
        return Err(ImageRefusal::Length);
    }
    if count == 0 {
        return Err(ImageRefusal::Count);
    }
    put_image(records, count, out);
    Ok(())
}
