// The rules of one record of an image; those of a window entry are crate image_entry's. The reader
// gives 0 past the end, so that no rule needs the record's length.
ghost use Rattle.std.specs.Prelude.{◌≡◌, ◌&&◌, ◌<◌};
ghost use Rattle.board.specs.Layout.{bases};
ghost use Rattle.numbers.specs.Numbers.{bytes};
ghost use Rattle.image_record.specs.Record.{
  mask_at,
  vendor_ok,
  header_type_ok,
  pin_ok,
  masks_ok,
  rom_ok,
  entry_at,
  entries_ok,
  offset_ok,
  record_ok,
};

use board::layout::{BASE_0, BASES, ENTRIES, ENTRY, MASKS, OFFSET};
use image_entry::entry::{Entry, entry_ok};
use numbers::number::{Width, big_at, byte_at, is_multiple, little_at};

// Vendor, header type and pin.
fn identity_ok(r: &[u8]) -> bool
    ensures { result
        ≡ (vendor_ok r.now
        && (header_type_ok r.now && pin_ok r.now)) }
{
    let vendor_ok = little_at(r, 0x00, Width::Word) != 0xFFFF;
    let header_type_ok = byte_at(r, 0x0E) % 128 == 0;
    let pin_ok = byte_at(r, 0x3D) <= 4;
    vendor_ok && header_type_ok && pin_ok
}

// The mask of registers, least byte first.
fn mask_at(r: &[u8], register: u8, width: Width) -> u32
    ensures { result ≡ mask_at (bytes width) r.now register }
{
    little_at(r, MASKS as usize + usize::from(register), width)
}

// The read-only registers have zero masks.
fn masks_ok(r: &[u8]) -> bool
    ensures { result ≡ masks_ok r.now }
{
    mask_at(r, 0x00, Width::Long) == 0
        && mask_at(r, 0x08, Width::Long) == 0
        && mask_at(r, 0x0E, Width::Byte) == 0
        && mask_at(r, 0x2C, Width::Long) == 0
        && mask_at(r, 0x30, Width::Long) == 0
        && mask_at(r, 0x3D, Width::Byte) == 0
}

// No expansion ROM: the reset values at 30h to 33h are zero.
fn rom_ok(r: &[u8]) -> bool
    ensures { result ≡ rom_ok r.now }
{
    little_at(r, 0x30, Width::Long) == 0
}

// The entry of base register b.
fn entry_at(r: &[u8], b: u8) -> Entry
    requires { b < bases }
    ensures { result ≡ entry_at r.now b }
{
    let at = (ENTRIES + ENTRY * u32::from(b)) as usize;
    let register = BASE_0 + 4 * b;
    Entry {
        exponent: byte_at(r, at),
        order: byte_at(r, at + 1),
        widths: byte_at(r, at + 2),
        zero: byte_at(r, at + 3),
        value: little_at(r, usize::from(register), Width::Long),
        mask: mask_at(r, register, Width::Long),
    }
}

// All six entries keep the rules.
fn entries_ok(r: &[u8]) -> bool
    ensures { result ≡ entries_ok r.now }
{
    (0..BASES as u8).all(|b| entry_ok(entry_at(r, b)))
}

// The offset is a multiple of 4.
fn offset_ok(r: &[u8]) -> bool
    ensures { result ≡ offset_ok r.now }
{
    is_multiple(big_at(r, OFFSET as usize, Width::Long), Width::Long)
}

// Whether the bytes of a record keep every rule.
#[tactic(auto, unfolding(crate::specs::Record::record_ok))]
pub fn record_ok(r: &[u8]) -> bool
    ensures { result ≡ record_ok r.now }
{
    identity_ok(r) && masks_ok(r) && rom_ok(r) && entries_ok(r) && offset_ok(r)
}
