// The check of a board image, without a board. It goes in the order of the refusals' numbers: no
// record is read before the trailer has said where the records are, and that they are all there.
ghost use Rattle.std.specs.Prelude.{◌≡◌, ◌+◌, ◌*◌, ◌≤◌, length};
ghost use Rattle.board.specs.Layout.{functions_max, exponent};
ghost use Rattle.cell_layout.specs.Cells.{total};
ghost use Rattle.image_layout.specs.Image.{image_record, record_at, sum};
ghost use Rattle.image_record.specs.Record.{record_ok};
ghost use Rattle.image_refusals.specs.Refusals.{first_bad};
ghost use Rattle.image_refusals.specs.Steps.{records_verdict};
ghost use Rattle.image_check.specs.Check.{checked_any_length, checked};
ghost use Rattle.image_check.specs.Steps.{FoundBad};

use cell_layout::cells::total_of;
use image_layout::layout::{IMAGE_RECORD, records_range};
use image_layout::sum::sum_of;
use image_layout::trailer::trailer_of;
use image_record::rules::record_ok;
use image_refusals::verdict::{ImageRefusal, Verdict, cells_verdict, form_refusal};

// Bytes of an image at most.
pub const IMAGE: usize = 65536;

// The record at a place.
fn record_at(records: &[u8], place: usize) -> &[u8]
    requires { image_record * place + image_record ≤ length records.now }
    ensures { result.now ≡ record_at records.now place }
{
    let from = IMAGE_RECORD * place;
    &records[from..from + IMAGE_RECORD]
}

// The place of the first of count records that breaks a rule.
fn first_bad(records: &[u8], count: usize) -> Option<usize>
    requires { (count ≤ functions_max) × (length records.now ≡ image_record * count) }
    ensures { FoundBad (λ i. record_ok (record_at records.now i)) count result }
{
    (0..count).find(|&place| !record_ok(record_at(records, place)))
}

// Refusals 5 to 8 of count records, with the sum that the trailer says. The total is read as of
// kept records, which an image's records are as they stand.
fn records_verdict(records: &[u8], count: usize, said: u32, room: usize) -> Verdict
    requires { (count ≤ functions_max) × (length records.now ≡ image_record * count) }
    ensures { result
        ≡ records_verdict (sum records.now) said
        (first_bad (λ i. record_ok (record_at records.now i)) 0 count) count
        (total (exponent records.now)) room }
{
    if sum_of(records) != said {
        return Err(ImageRefusal::Sum);
    }
    if let Some(place) = first_bad(records, count) {
        return Err(ImageRefusal::Record {
            place: place as u32,
        });
    }
    cells_verdict(total_of(records), room)
}

// All refusals but for the upper length, which an image that comes in portions does not have.
pub fn check_any_length(image: &[u8], room: usize) -> Verdict
    ensures { result ≡ checked_any_length image.now room }
{
    let t = trailer_of(image);
    form_refusal(image.len(), t.edition, t.count, t.distance)?;
    let range = records_range(image.len(), t.count);
    let records = &image[range.from..range.to];
    records_verdict(records, t.count as usize, t.sum, room)
}

// All refusals of an image, with so many cells lent.
#[tactic(auto, unfolding(crate::specs::Check::checked))]
pub fn check_image(image: &[u8], room: usize) -> Verdict
    ensures { result ≡ checked image.now room }
{
    if IMAGE < image.len() {
        return Err(ImageRefusal::Length);
    }
    check_any_length(image, room)
}
