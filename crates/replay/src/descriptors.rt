// The descriptors that a call left in its own buffer.
use board::layout::BASES;
use resource_descriptor::descriptor::Descriptor;
use resource_walk::step::descriptor_step;
use std::io;
use std::io::Write;

// The fields of a descriptor in their order.
fn fields<W: Write>(out: &mut W, d: Descriptor) -> io::Result<()> {
    write!(out, "next {} flags 0x{:04x} ", d.next, d.flags)?;
    write!(out, "start 0x{:08x} length 0x{:08x} ", d.start, d.length)?;
    write!(
        out,
        "offset 0x{:08x} dmaoffset 0x{:08x}",
        d.offset, d.dmaoffset
    )
}

// The descriptors from the first byte on, up to the last mark; a function has no more of them than
// base registers.
pub(crate) fn descriptors<W: Write>(out: &mut W, bytes: &[u8]) -> io::Result<()> {
    let mut between = "";
    let mut at = 0;
    for _ in 0..BASES {
        let Some(step) = descriptor_step(bytes, at) else {
            break;
        };
        write!(out, "{between}")?;
        fields(out, step.descriptor)?;
        at = step.following;
        between = "; ";
    }
    Ok(())
}
