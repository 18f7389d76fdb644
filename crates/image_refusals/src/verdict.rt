// The verdict of a check, and the refusals that need no record: those of the trailer's numbers, and
// of the cells.
ghost use Rattle.std.specs.Prelude.{◌≡◌, ◌≤◌, OnOk};
ghost use Rattle.board.specs.Layout.{functions_max};
ghost use Rattle.image_layout.specs.Image.{image_size};
ghost use Rattle.image_refusals.specs.Refusals.{
  image_refusal_number,
  image_refusal_place,
  verdict_number,
  verdict_place,
};
ghost use Rattle.image_refusals.specs.Steps.{form_refusal, cells_verdict};

use board::layout::FUNCTIONS;
use image_layout::layout::{TRAILER, image_size};

// Cells of a board at most.
pub const CELLS: u32 = 65536;

// Why an image is refused: document 01's "Load refusals", in their order.
#[derive(Clone, Copy, Debug, PartialEq, Eq)]
pub enum ImageRefusal {
    // The image is shorter than a trailer, or longer than an image may be.
    Length,
    // The edition is not 1.
    Edition,
    // No record, or more than a board has functions.
    Count,
    // The distance is not that of so many records, or exceeds the image.
    Distance,
    // The records have another sum.
    Sum,
    // The record at this place is the first that breaks a rule.
    Record { place: u32 },
    // The windows have more cells than a board may have.
    Windows,
    // Too few cells are lent.
    Cells,
}

impl ImageRefusal {
    // The number that stands for it.
    pub fn number(self) -> i32
        ensures { result ≡ image_refusal_number self }
    {
        match self {
            ImageRefusal::Length => 1,
            ImageRefusal::Edition => 2,
            ImageRefusal::Count => 3,
            ImageRefusal::Distance => 4,
            ImageRefusal::Sum => 5,
            ImageRefusal::Record { .. } => 6,
            ImageRefusal::Windows => 7,
            ImageRefusal::Cells => 8,
        }
    }

    // The place of the record that it names, 0 where it names none.
    pub fn place(self) -> u32
        ensures { result ≡ image_refusal_place self }
    {
        match self {
            ImageRefusal::Record { place } => place,
            _ => 0,
        }
    }
}

// What a check finds: nothing to refuse, or the first refusal that applies.
pub type Verdict = Result<(), ImageRefusal>;

// The number of a verdict: 0 where nothing is refused.
pub fn verdict_number(verdict: Verdict) -> i32
    ensures { result ≡ verdict_number verdict }
{
    match verdict {
        Ok(()) => 0,
        Err(refusal) => refusal.number(),
    }
}

// The place that is handed back with it.
pub fn verdict_place(verdict: Verdict) -> u32
    ensures { result ≡ verdict_place verdict }
{
    verdict.err().map_or(0, |refusal| refusal.place())
}

// The refusals of the length and the trailer's numbers. Where none applies, all records are there.
pub fn form_refusal(long: usize, edition: u32, count: u32, distance: u32) -> Verdict
    ensures value { result ≡ form_refusal long edition count distance }
    ensures whole { OnOk result ((count ≤ functions_max) × (image_size count ≤ long)) }
{
    if long < TRAILER {
        return Err(ImageRefusal::Length);
    }
    if edition != 1 {
        return Err(ImageRefusal::Edition);
    }
    if count == 0 || (FUNCTIONS as u32) < count {
        return Err(ImageRefusal::Count);
    }
    let size = image_size(count);
    if distance as usize != size || long < size {
        return Err(ImageRefusal::Distance);
    }
    Ok(())
}

// The refusals of the cells: more than a board may have, or more than are lent.
pub fn cells_verdict(total: u32, room: usize) -> Verdict
    ensures { result ≡ cells_verdict total room }
{
    if CELLS < total {
        return Err(ImageRefusal::Windows);
    }
    if room < total as usize {
        return Err(ImageRefusal::Cells);
    }
    Ok(())
}
