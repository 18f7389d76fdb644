// One descriptor: its fields, and its 20 bytes.
ghost use Rattle.std.specs.Prelude.{cond, ◌≡◌, ◌≤◌};
ghost use Rattle.std.proofs.lemmas.List.Edits.{sets};
ghost use Rattle.resource_descriptor.specs.Descriptor.{shown_order, flags, descriptor_bytes};

use numbers::number::{Width, put_big};

// Bytes of a descriptor, and the next field that says so.
pub const SIZE: usize = 20;

pub const NEXT: u16 = SIZE as u16;

// The mark of the last descriptor, and of a window in the I/O space; what one unit of the widths
// counts in the flags.
pub const LAST: u16 = 0x8000;

const IO: u16 = 0x4000;

const WIDTHS: u16 = 0x0100;

// The fields in the order of the bytes.
#[derive(Clone, Copy)]
pub struct Descriptor {
    pub next: u16,
    pub flags: u16,
    pub start: u32,
    pub length: u32,
    pub offset: u32,
    pub dmaoffset: u32,
}

// A mark where it is set.
fn mark(on: bool, value: u16) -> u16
    ensures { (result ≡ cond on value 0) × (result ≤ value) }
{
    if on { value } else { 0 }
}

// A byte order as a descriptor shows it.
fn shown_order(order: u8) -> u16
    ensures { (result ≡ shown_order order) × (result ≤ 15) }
{
    match order {
        1 | 2 | 15 => u16::from(order),
        _ => 0,
    }
}

// The flags of a window.
pub fn flags(last: bool, io: bool, widths: u8, order: u8) -> u16
    ensures { result ≡ flags last io widths order }
{
    mark(last, LAST) + (mark(io, IO) + (WIDTHS * u16::from(widths % 8) + shown_order(order)))
}

// Stores the bytes of a descriptor; those past the end of the output are left out.
pub fn put(out: &mut [u8], at: usize, d: Descriptor)
    ensures { out.new ≡ sets out.old at (descriptor_bytes d) }
{
    if out.len() <= at {
        return;
    }
    put_big(out, at, Width::Word, u32::from(d.next));
    put_big(out, at + 2, Width::Word, u32::from(d.flags));
    put_big(out, at + 4, Width::Long, d.start);
    put_big(out, at + 8, Width::Long, d.length);
    put_big(out, at + 12, Width::Long, d.offset);
    put_big(out, at + 16, Width::Long, d.dmaoffset);
}
