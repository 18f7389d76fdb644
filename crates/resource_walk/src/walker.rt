// The walker: the caller's descriptor bytes, and a position in them. It is an iterator over the
// steps, thin, and what it does is `descriptor_step`.
ghost use Rattle.std.specs.Prelude.{◌≡◌, ◌-◌, length};
ghost use Rattle.std.specs.Iterator.{at_most};
ghost use Rattle.resource_walk.specs.Walk.{step_at, position};

use crate::step::{Step, descriptor_step, position};

#[derive(Clone, Copy)]
pub struct Walker<'a> {
    pub bytes: &'a [u8],
    pub at: usize,
}

impl<'a> Walker<'a> {
    // A walker at the first byte.
    pub fn new(bytes: &'a [u8]) -> Walker<'a>
        ensures { (result.bytes ≡ bytes.entry) × (result.at ≡ 0) }
    {
        Walker {
            bytes: bytes,
            at: 0,
        }
    }
}

// The step at the walker's position; the walker then stands at the position after it. It ends, as
// each step passes 20 bytes or more.
impl<'a> Iterator for Walker<'a> {
    type Item = Step;

    ghost next_gives = { λ w step v. (step ≡ step_at w.bytes.now w.at) × ((v.bytes ≡ w.bytes) × (v.at ≡ position w.at step)) };

    ghost remaining = { λ w. at_most (length w.bytes.now - w.at) };

    fn next(&mut self) -> Option<Step> {
        let step = descriptor_step(self.bytes, self.at);
        self.at = position(self.at, step);
        step
    }
}
