// The call that a header says. The header is not tested field by field: the only call that its
// fields can mean is encoded once more, and the bytes are compared.
ghost use Rattle.std.specs.Prelude.{◌≡◌};
ghost use Rattle.call_encoding.specs.Format.{header_fields_at, decoded};

use crate::encode::{A, B, C, HANDLE, OWN_LENGTH, call_header};
use crate::fields::{Fields, call_of, fields_of};
use call::Call;
use numbers::number::{Width, big_at, byte_at};

// What a header says: a call, and the length of its own buffer.
#[derive(Clone, Copy)]
pub struct Decoded {
    pub call: Call,
    pub own: u32,
}

// The bytes at the positions of the fields.
fn header_fields_at(header: &[u8]) -> Fields
    ensures { result ≡ header_fields_at header.now }
{
    Fields {
        operation: byte_at(header, 0),
        width: byte_at(header, 1),
        space: byte_at(header, 2),
        register: byte_at(header, 3),
        handle: big_at(header, HANDLE, Width::Long),
        a: big_at(header, A, Width::Long),
        b: big_at(header, B, Width::Long),
        c: big_at(header, C, Width::Long),
    }
}

// The only call that the fields can mean, if its header is these bytes and no others.
#[tactic(auto, using(crate::proofs::Bytes::decoded_known, crate::proofs::Bytes::decoded_not))]
pub fn decode(header: &[u8]) -> Option<Decoded>
    ensures { result ≡ decoded header.now }
{
    let call = call_of(header_fields_at(header));
    let own = big_at(header, OWN_LENGTH, Width::Long);
    let again = call_header(fields_of(call), own);
    if again.as_slice() == header {
        Some(Decoded {
            call: call,
            own: own,
        })
    } else {
        None
    }
}
