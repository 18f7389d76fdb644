// Values in the cells of an access, highest byte first but for those called little. All of the
// cells are there, so that none is tested for when they are read or written.
ghost use Rattle.std.specs.Prelude.{◌≡◌, ◌+◌, ◌≤◌, length};
ghost use Rattle.std.proofs.lemmas.List.Edits.{sets};
ghost use Rattle.numbers.specs.Numbers.{byte_at, bytes, little, big, big_bytes};
ghost use Rattle.data_cells.specs.Cells.{cells_value, cells_after};

use data_cells::target::Cells;
use data_order::order::{REVERSED_BYTES, ordered};
use numbers::number::Width;

#[tactic(auto, unfolding(numbers::specs::Numbers::big))]
fn one_at(cells: &[u8], at: usize) -> u32
    requires { at + 1 ≤ length cells.now }
    ensures { result ≡ big 1 (byte_at cells.now) at }
{
    u32::from(cells[at])
}

#[tactic(auto, unfolding(numbers::specs::Numbers::big))]
fn word_at(cells: &[u8], at: usize) -> u32
    requires { at + 2 ≤ length cells.now }
    ensures { result ≡ big 2 (byte_at cells.now) at }
{
    u32::from(u16::from_be_bytes([cells[at], cells[at + 1]]))
}

#[tactic(auto, unfolding(numbers::specs::Numbers::big))]
fn long_at(cells: &[u8], at: usize) -> u32
    requires { at + 4 ≤ length cells.now }
    ensures { result ≡ big 4 (byte_at cells.now) at }
{
    u32::from_be_bytes([cells[at], cells[at + 1], cells[at + 2], cells[at + 3]])
}

#[tactic(auto, unfolding(numbers::specs::Numbers::little))]
fn little_word_at(cells: &[u8], at: usize) -> u32
    requires { at + 2 ≤ length cells.now }
    ensures { result ≡ little 2 (byte_at cells.now) at }
{
    u32::from(u16::from_le_bytes([cells[at], cells[at + 1]]))
}

#[tactic(auto, unfolding(numbers::specs::Numbers::little))]
fn little_long_at(cells: &[u8], at: usize) -> u32
    requires { at + 4 ≤ length cells.now }
    ensures { result ≡ little 4 (byte_at cells.now) at }
{
    u32::from_le_bytes([cells[at], cells[at + 1], cells[at + 2], cells[at + 3]])
}

// The value in the cells. Where it is to be reversed it is read least byte first at once: a
// processor then needs one load either way.
pub(crate) fn value_at(cells: &[u8], target: Cells, width: Width) -> u32
    requires { target.at + bytes width ≤ length cells.now }
    ensures { result ≡ cells_value target.order (bytes width) target.at cells.now }
{
    let is_reversed = target.order == REVERSED_BYTES;
    match width {
        Width::Byte => one_at(cells, target.at),
        Width::Word if is_reversed => little_word_at(cells, target.at),
        Width::Word => word_at(cells, target.at),
        Width::Long if is_reversed => little_long_at(cells, target.at),
        Width::Long => long_at(cells, target.at),
    }
}

// Stores a number at a position.
fn put_number(cells: &mut [u8], at: usize, width: Width, value: u32)
    requires { at + bytes width ≤ length cells.old }
    ensures { cells.new
        ≡ sets cells.old at (big_bytes (bytes width) value) }
{
    let b = value.to_be_bytes();
    match width {
        Width::Byte => cells[at] = b[3],
        Width::Word => cells[at..at + 2].copy_from_slice(&b[2..]),
        Width::Long => cells[at..at + 4].copy_from_slice(&b),
    }
}

// Stores a value in the cells, so that the same read gives it back.
pub(crate) fn put_value(cells: &mut [u8], target: Cells, width: Width, value: u32)
    requires { target.at + bytes width ≤ length cells.old }
    ensures { cells.new
        ≡ cells_after target.order (bytes width) target.at value cells.old }
{
    put_number(cells, target.at, width, ordered(target.order, width, value));
}
