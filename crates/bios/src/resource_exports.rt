// Descriptors for C: writing them, and a step through them.
ghost use Rattle.std.specs.Prelude.{◌≡◌};
ghost use Rattle.resource.specs.Resource.{get_resource};
ghost use Rattle.resource_walk.specs.Walk.{step_at};
ghost use Rattle.bios.specs.Exports.{left, descriptors_left, fields_shown, step_shown, step_numbers};

use board::layout::{Header, Records, Registers, Windows};
use board::status::number_of;
use resource::get_resource;
use resource_descriptor::descriptor::Descriptor;
use resource_walk::step::descriptor_step;

// A descriptor as numbers: next, flags, start, length, offset, dmaoffset.
pub type DescriptorFields = [u32; 6];

fn descriptor_fields(d: Descriptor) -> DescriptorFields
    ensures { result ≡ fields_shown d }
{
    [
        d.next as u32,
        d.flags as u32,
        d.start,
        d.length,
        d.offset,
        d.dmaoffset,
    ]
}

// Writes the descriptors of a function's windows.
#[unsafe(no_mangle)]
pub extern "C" fn bios_get_resource(
    header: &Header,
    records: &Records,
    registers: &Registers,
    windows: &Windows,
    handle: u32,
    out: &mut [u8],
) -> i32
    ensures { left result out.new
        ≡ descriptors_left (get_resource
        header.now records.now registers.now windows.now
        handle out.old) }
{
    number_of(get_resource(header, records, registers, windows, handle, out)).0
}

// The descriptor at a position, and the position after it: 1 where there is one, else 0 with zeros
// and the position as it was.
#[unsafe(no_mangle)]
pub extern "C" fn bios_descriptor_step(
    bytes: &[u8],
    at: usize,
    fields: &mut DescriptorFields,
    following: &mut usize,
) -> u32
    ensures { step_numbers result fields.new following.new
        ≡ step_shown at (step_at bytes.now at) }
{
    match descriptor_step(bytes, at) {
        Some(step) => {
            *fields = descriptor_fields(step.descriptor);
            *following = step.following;
            1
        }
        None => {
            *fields = [0u32; 6];
            *following = at;
            0
        }
    }
}
