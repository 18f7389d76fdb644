// Bytes and the numbers that they make. Every reader is total, 0 past the end, so that contracts of
// the crates above need no bounds. A number whose highest byte comes first is the number of the
// same bytes least first, reversed: so it is read, and so it is stored.
ghost use Rattle.std.specs.Prelude.{◌≡◌, ◌+◌, ◌*◌, ◌%◌, ◌^◌, ◌<◌, ◌≤◌, get_or, set};
ghost use Rattle.std.proofs.lemmas.List.Edits.{sets};
ghost use Rattle.numbers.specs.Numbers.{
  byte_at,
  bytes,
  is_multiple,
  little,
  big,
  big_bytes,
  reversed,
  power,
  bits,
};

// How many bytes an access or a number has.
#[derive(Clone, Copy)]
pub enum Width {
    // 1 byte.
    Byte,
    // 2 bytes.
    Word,
    // 4 bytes.
    Long,
}

// The bytes of a width.
pub fn bytes(width: Width) -> u8
    ensures { result ≡ bytes width }
{
    match width {
        Width::Byte => 1,
        Width::Word => 2,
        Width::Long => 4,
    }
}

// The bytes of a width are 2 to this power.
fn exponent(width: Width) -> u8
    ensures { (2 ^ result ≡ bytes width) × (result < 3) }
{
    match width {
        Width::Byte => 0,
        Width::Word => 1,
        Width::Long => 2,
    }
}

// The bytes of a width without a branch, for calls whose width changes from one to the next: a
// processor foresees such a branch badly.
pub fn bytes_by_shift(width: Width) -> u32
    ensures { (result ≡ bytes width) × ((0 < result) × (result ≤ 4)) }
{
    1u32 << exponent(width)
}

// Whether a number is a multiple of a width.
pub fn is_multiple(n: u32, width: Width) -> bool
    ensures { result ≡ is_multiple n (bytes width) }
{
    match width {
        Width::Byte => true,
        Width::Word => n % 2 == 0,
        Width::Long => n % 4 == 0,
    }
}

// The same without a branch, for data calls; docs/DECISIONS.md says what it would cost
// configuration calls.
pub fn is_multiple_by_shift(n: u32, width: Width) -> bool
    ensures { result ≡ is_multiple n (bytes width) }
{
    n % bytes_by_shift(width) == 0
}

// The item at a position of a lent slice, another past its end.
pub fn item_or<T: Copy>(items: &[T], at: usize, other: T) -> T
    ensures { result ≡ get_or items.now at other }
{
    if at < items.len() { items[at] } else { other }
}

// The byte at a position, 0 past the end.
pub fn byte_at(s: &[u8], at: usize) -> u8
    ensures { result ≡ byte_at s.now at }
{
    item_or(s, at, 0)
}

// Stores a byte at a position; past the end nothing is stored.
pub fn put_byte(s: &mut [u8], at: usize, b: u8)
    ensures { s.new ≡ set s.old at b }
{
    if at < s.len() {
        s[at] = b;
    }
}

// The byte i after a position, 0 past the end.
fn byte_after(s: &[u8], at: usize, i: u8) -> u8
    ensures { result ≡ byte_at s.now (at + i) }
{
    if s.len() <= at {
        return 0;
    }
    byte_at(s, at + i as usize)
}

// The number of four bytes, least first.
fn number(a: u8, b: u8, c: u8, d: u8) -> u32
    ensures { result ≡ a % 256 + 256 * (b % 256 + 256 * (c % 256 + 256 * (d % 256))) }
{
    u32::from_le_bytes([a, b, c, d])
}

// The number at a position, least byte first.
pub fn little_at(s: &[u8], at: usize, width: Width) -> u32
    ensures { result ≡ little (bytes width) (byte_at s.now) at }
{
    let a = byte_after(s, at, 0);
    match width {
        Width::Byte => number(a, 0, 0, 0),
        Width::Word => number(a, byte_after(s, at, 1), 0, 0),
        Width::Long => {
            number(
                a,
                byte_after(s, at, 1),
                byte_after(s, at, 2),
                byte_after(s, at, 3),
            )
        }
    }
}

// A number with the bytes of a width in the other order.
pub fn reversed(v: u32, width: Width) -> u32
    ensures { result ≡ reversed (bytes width) v }
{
    match width {
        Width::Byte => v % 256,
        Width::Word => v % 256 * 256 + v / 256 % 256,
        Width::Long => {
            v % 256 * 16777216 + v / 256 % 256 * 65536 + v / 65536 % 256 * 256 + v / 16777216
        }
    }
}

// The number at a position, highest byte first.
pub fn big_at(s: &[u8], at: usize, width: Width) -> u32
    ensures { result ≡ big (bytes width) (byte_at s.now) at }
{
    reversed(little_at(s, at, width), width)
}

// Stores the bytes of a number at a position, highest first; past the end nothing is stored.
pub fn put_big(s: &mut [u8], at: usize, width: Width, value: u32)
    ensures { s.new ≡ sets s.old at (big_bytes (bytes width) value) }
{
    if s.len() <= at {
        return;
    }
    let w = bytes(width);
    let mut rest = reversed(value, width);
    // Invariant: storing the bytes from i on, rest's digits, gives what storing all of them gives.
    for i in 0..w {
        put_byte(s, at + i as usize, (rest % 256) as u8);
        rest /= 256;
    }
}

// 2 to the power k, and 0 for k past 31.
pub fn power(k: u32) -> u64
    ensures { result ≡ power k }
{
    if k < 32 { 1u64 << k } else { 0 }
}

// The 32 bits of a signed number, in two's complement.
pub fn bits(n: i32) -> u32
    ensures { result ≡ bits n }
{
    n.cast_unsigned()
}
