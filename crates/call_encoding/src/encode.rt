// The header of a call.
ghost use Rattle.std.specs.Prelude.{◌≡◌};
ghost use Rattle.call_encoding.specs.Format.{call_header, encoded};

use crate::fields::{Fields, fields_of};
use call::Call;
use numbers::number::{Width, put_big};

// Bytes of a header, and where the length of the call's own buffer stands in it.
pub const CALL_HEADER: usize = 64;

pub const OWN_LENGTH: usize = 60;

pub type CallHeader = [u8; CALL_HEADER];

// Where the fields of four bytes stand; those of one byte are the first four.
pub(crate) const HANDLE: usize = 4;

pub(crate) const A: usize = 8;

pub(crate) const B: usize = 12;

pub(crate) const C: usize = 16;

// The header with these fields: zeros everywhere else.
#[tactic(auto, using(crate::proofs::Bytes::header_put))]
pub(crate) fn call_header(f: Fields, own: u32) -> CallHeader
    ensures { result ≡ call_header f own }
{
    let mut out = [0u8; CALL_HEADER];
    out[0] = f.operation;
    out[1] = f.width;
    out[2] = f.space;
    out[3] = f.register;
    put_big(&mut out, HANDLE, Width::Long, f.handle);
    put_big(&mut out, A, Width::Long, f.a);
    put_big(&mut out, B, Width::Long, f.b);
    put_big(&mut out, C, Width::Long, f.c);
    put_big(&mut out, OWN_LENGTH, Width::Long, own);
    out
}

// The header of a call whose own buffer has so many bytes.
pub fn encode(call: Call, own: u32, out: &mut CallHeader)
    ensures { out.new ≡ encoded call own }
{
    *out = call_header(fields_of(call), own);
}
