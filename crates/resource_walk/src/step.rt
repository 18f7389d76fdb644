// A step through descriptor bytes: the descriptor at a position, and the position after it. The
// bytes may be anyone's, and so may the position.
ghost use Rattle.std.specs.Prelude.{◌≡◌, length, ◌+◌, ◌^◌, ◌<◌, ◌≤◌};
ghost use Rattle.resource_descriptor.specs.Descriptor.{size, descriptor_at};
ghost use Rattle.resource_walk.specs.Walk.{following, step_at, position};

use numbers::number::{Width, big_at};
use resource_descriptor::descriptor::{Descriptor, LAST, NEXT, SIZE};

// A step: the descriptor at a position, and the position after it.
#[derive(Clone, Copy)]
pub struct Step {
    pub descriptor: Descriptor,
    pub following: usize,
}

// The fields that stand at a position.
fn descriptor_at(bytes: &[u8], at: usize) -> Descriptor
    requires { at + size ≤ length bytes.now }
    ensures { result ≡ descriptor_at bytes.now at }
{
    Descriptor {
        next: big_at(bytes, at, Width::Word) as u16,
        flags: big_at(bytes, at + 2, Width::Word) as u16,
        start: big_at(bytes, at + 4, Width::Long),
        length: big_at(bytes, at + 8, Width::Long),
        offset: big_at(bytes, at + 12, Width::Long),
        dmaoffset: big_at(bytes, at + 16, Width::Long),
    }
}

// The position after a descriptor in a slice of so many bytes: by its next field where it leads on,
// else the slice's end.
fn following(end: usize, at: usize, d: Descriptor) -> usize
    requires { (at ≤ end) × (end < 2 ^ 63) }
    ensures { result ≡ following end at d }
{
    if !(LAST <= d.flags) & (NEXT <= d.next) {
        return at + usize::from(d.next);
    }
    end
}

// The step at any position of any bytes, where SIZE bytes remain.
pub fn descriptor_step(bytes: &[u8], at: usize) -> Option<Step>
    ensures { result ≡ step_at bytes.now at }
{
    let end = bytes.len();
    // Whether SIZE bytes remain is asked by subtracting: at + SIZE may be above what a usize holds.
    let last = end.checked_sub(SIZE)?;
    if last < at {
        return None;
    }
    let d = descriptor_at(bytes, at);
    Some(Step {
        descriptor: d,
        following: following(end, at, d),
    })
}

// Where a walk stands after a step from a position: one that has ended stays.
pub fn position(at: usize, step: Option<Step>) -> usize
    ensures { result ≡ position at step }
{
    step.map_or(at, |made| made.following)
}
