// A value stored in an answer, highest byte first.
ghost use Rattle.std.specs.Prelude.{◌≡◌, ◌+◌, ◌≤◌, length};
ghost use Rattle.std.proofs.lemmas.List.Edits.{sets};
ghost use Rattle.numbers.specs.Numbers.{big_bytes};

// Stores a number of 8 bytes.
#[tactic(auto, using(crate::proofs::Bytes::value_put))]
pub(crate) fn put_value(out: &mut [u8], at: usize, v: u64)
    requires { at + 8 ≤ length out.old }
    ensures { out.new ≡ sets out.old at (big_bytes 8 v) }
{
    out[at..at + 8].copy_from_slice(&v.to_be_bytes());
}
