// A register byte written through its masks: the mask says which bits take what is written, the
// clear mask which bits are cleared by writing 1. Whose byte it is plays no part.
ghost use Rattle.std.specs.Prelude.{◌≡◌};
ghost use Rattle.config_masked.specs.Masked.{merged, written};

// The bits of the first byte where the mask has 1, those of the second elsewhere.
fn merged(mask: u8, first: u8, second: u8) -> u8
    ensures { result ≡ merged mask first second }
{
    (first & mask) | (second & !mask)
}

// A byte after a write. A bit in both masks follows the clear mask.
pub fn written(mask: u8, clear: u8, old: u8, new: u8) -> u8
    ensures { result ≡ written mask clear old new }
{
    merged(clear, old & !new, merged(mask, new, old))
}
