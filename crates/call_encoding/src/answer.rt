// The bytes of an answer, which are written over the call's header.
ghost use Rattle.std.specs.Prelude.{◌≡◌};
ghost use Rattle.call_encoding.specs.Format.{answer_bytes};

use crate::encode::{CALL_HEADER, CallHeader, OWN_LENGTH};
use crate::put::put_value;
use call::answer::Answer;
use numbers::number::{Width, bits, put_big};

// The answer of a call whose own buffer has so many bytes.
pub fn answer_bytes(answer: Answer, own: u32) -> CallHeader
    ensures { result ≡ answer_bytes answer own }
{
    let [a, b, c, d, e, f] = answer.values;
    let mut out = [0u8; CALL_HEADER];
    put_big(&mut out, 0, Width::Long, bits(answer.number));
    out[4] = u8::from(answer.refused);
    put_value(&mut out, 8, a);
    put_value(&mut out, 16, b);
    put_value(&mut out, 24, c);
    put_value(&mut out, 32, d);
    put_value(&mut out, 40, e);
    put_value(&mut out, 48, f);
    put_big(&mut out, OWN_LENGTH, Width::Long, own);
    out
}
