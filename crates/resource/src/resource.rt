// The descriptors of a function's windows, in base register order, in two passes over its base
// registers: the count comes first, as a buffer that is too short stays as it was, and as the last
// descriptor is marked.
ghost use Rattle.std.specs.Prelude.{true, ◌≡◌, length, ◌-◌};
ghost use Rattle.std.proofs.lemmas.List.Edits.{sets};
ghost use Rattle.board.specs.Layout.{exponent};
ghost use Rattle.window.specs.Window.{is_window};
ghost use Rattle.resource_descriptor.specs.Descriptor.{descriptors_bytes};
ghost use Rattle.resource.specs.Resource.{
  window_bases,
  descriptor_of,
  descriptors,
  source_of,
  resource_outcome,
  get_resource,
};

use board::handle::{is_handle, place};
use board::layout::{
    BASES, Header, Records, Registers, Windows, base_register, byte_order, dma_offset, exponent,
    offset, widths,
};
use board::status::{CallRefusal, Status};
use resource_descriptor::descriptor::{Descriptor, NEXT, SIZE, flags, put};
use window::decode::{is_window, window_length};
use window_start::start::start_in;

// Whether a base register of a function has a window.
fn has_window(records: &Records, function: u32, base: u8) -> bool
    ensures { result ≡ is_window (exponent records.now function base) }
{
    is_window(exponent(records, function, base))
}

// How many windows a function has.
fn window_count(records: &Records, function: u32) -> usize
    ensures { result ≡ length (window_bases (exponent records.now function)) }
{
    (0..BASES as u8)
        .filter(|base| has_window(records, function, *base))
        .count()
}

// The descriptor of the window of a base register.
fn descriptor_of(
    records: &Records,
    registers: &Registers,
    windows: &Windows,
    handle: u32,
    last: bool,
    base: u8,
) -> Descriptor
    requires { is_window (exponent records.now (handle - 1) base) ≡ true }
    ensures { result ≡ descriptor_of
        (source_of records.now registers.now windows.now handle)
        last base }
{
    let function = place(handle);
    let start = start_in(windows, handle, base);
    let io = base_register(registers, function, base) % 2 == 1;
    Descriptor {
        next: NEXT,
        flags: flags(
            last,
            io,
            widths(records, function, base),
            byte_order(records, function, base),
        ),
        start: start,
        length: window_length(exponent(records, function, base)),
        offset: offset(records, function),
        dmaoffset: dma_offset(records, function),
    }
}

// Stores the descriptors of all windows of a function.
fn put_all(
    records: &Records,
    registers: &Registers,
    windows: &Windows,
    handle: u32,
    count: usize,
    out: &mut [u8],
)
    requires { count ≡ length (window_bases (exponent records.now (handle - 1))) }
    ensures { out.new
        ≡ sets out.old 0 (descriptors_bytes (descriptors (source_of
        records.now registers.now windows.now handle))) }
{
    let function = place(handle);
    let mut n = 0;
    // Invariant: count - n windows are left from base on; their descriptors at 20 n make the whole.
    for base in 0..BASES as u8 {
        if !has_window(records, function, base) {
            continue;
        }
        let d = descriptor_of(records, registers, windows, handle, n + 1 == count, base);
        put(out, SIZE * n, d);
        n += 1;
    }
}

// Fills a lent buffer with the descriptors of a function's windows.
#[tactic(auto, unfolding(crate::specs::Resource::resource))]
pub fn get_resource(
    header: &Header,
    records: &Records,
    registers: &Registers,
    windows: &Windows,
    handle: u32,
    out: &mut [u8],
) -> Status
    ensures { resource_outcome result out.new
        ≡ get_resource
        header.now records.now registers.now windows.now
        handle out.old }
{
    if !is_handle(header, handle) {
        return Err(CallRefusal::BadHandle);
    }
    let count = window_count(records, place(handle));
    if count == 0 {
        return Err(CallRefusal::GeneralError);
    }
    if out.len() < SIZE * count {
        return Err(CallRefusal::BufferTooSmall);
    }
    put_all(records, registers, windows, handle, count, out);
    Ok(())
}
