// The rules of one window entry, with the reset value and the mask of its base register.
ghost use Rattle.std.specs.Prelude.{◌≡◌, ◌&&◌, ◌<◌, ◌≤◌};
ghost use Rattle.image_entry.specs.Entry.{empty_ok, form_ok, low_bits_ok, mask_ok, entry_ok};

use numbers::number::power;

// An entry's four bytes, and the reset value and the mask of its base register.
#[derive(Clone, Copy)]
pub struct Entry {
    pub exponent: u8,
    pub order: u8,
    pub widths: u8,
    pub zero: u8,
    pub value: u32,
    pub mask: u32,
}

// No window: the rest of the entry, the register and its mask are zero.
fn empty_ok(e: Entry) -> bool
    ensures { result ≡ empty_ok e }
{
    e.order == 0 && e.widths == 0 && e.zero == 0 && e.value == 0 && e.mask == 0
}

// The rules that need no power of two.
fn form_ok(e: Entry) -> bool
    ensures { result ≡ form_ok e }
{
    let is_io = e.value % 2 == 1;
    let exponent_ok = (4 <= e.exponent || is_io && 2 <= e.exponent) && e.exponent <= 16;
    let order_ok = e.order <= 2 || e.order == 15;
    let widths_ok = 1 <= e.widths && e.widths <= 7;
    exponent_ok && order_ok && widths_ok && e.zero == 0
}

// The mask of a window of a size is 2^32 less the size.
fn mask_ok(mask: u32, size: u64) -> bool
    requires { size ≤ 65536 }
    ensures { result ≡ mask_ok mask size }
{
    u64::from(mask) + size == 4294967296
}

// The bits of a reset value below the size: I/O has 1 in bit 0 only; memory may have bit 3 set.
fn low_bits_ok(value: u32, size: u64) -> bool
    requires { 0 < size }
    ensures { result ≡ low_bits_ok value size }
{
    let low = u64::from(value) % size;
    if value % 2 == 1 {
        low == 1
    } else {
        low == 0 || low == 8
    }
}

// The rules of a window of a size, beside those of its form.
fn window_ok(e: Entry, size: u64) -> bool
    requires { (0 < size) × (size ≤ 65536) }
    ensures { result ≡ (mask_ok e.mask size && low_bits_ok e.value size) }
{
    mask_ok(e.mask, size) && low_bits_ok(e.value, size)
}

// Whether an entry keeps the rules. The form is tested first: it bounds the exponent, and with it
// the size.
pub fn entry_ok(e: Entry) -> bool
    ensures { result ≡ entry_ok e }
{
    if e.exponent == 0 {
        return empty_ok(e);
    }
    if !form_ok(e) {
        return false;
    }
    let size = power(u32::from(e.exponent));
    window_ok(e, size)
}
