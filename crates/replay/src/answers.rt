// The rest of a call's line: what it was answered. The answer is read where it stands, over the
// call's header (docs/SCRIPT.md).
use crate::descriptors::descriptors;
use crate::forms::digits;
use call::{Access, Call, Query};
use numbers::number::{Width, big_at, byte_at};
use std::io;
use std::io::Write;

// The number of a load that refuses a record, whose place is value 0.
const RECORD_REFUSED: i32 = 6;

// An answer; none of its values has more than 32 bits.
#[derive(Clone, Copy)]
struct Reply {
    number: i32,
    refused: bool,
    values: [u32; 6],
}

fn reply_at(bytes: &[u8]) -> Reply {
    Reply {
        number: big_at(bytes, 0, Width::Long).cast_signed(),
        refused: byte_at(bytes, 4) != 0,
        values: [
            big_at(bytes, 12, Width::Long),
            big_at(bytes, 20, Width::Long),
            big_at(bytes, 28, Width::Long),
            big_at(bytes, 36, Width::Long),
            big_at(bytes, 44, Width::Long),
            big_at(bytes, 52, Width::Long),
        ],
    }
}

// What an accepted query hands back beside its number.
fn print_found<W: Write>(out: &mut W, query: Query, values: [u32; 6]) -> io::Result<()> {
    let [a, b, c, d, e, f] = values;
    match query {
        Query::BusToCpu { .. } | Query::CpuToBus { .. } => write!(out, ", 0x{a:08x}"),
        Query::ListWindow { .. } => {
            let space = if a == 0 { "mem" } else { "io" };
            let mark = if f == 0 { "clear" } else { "contested" };
            write!(out, ", {space} 0x{b:08x} 0x{c:08x} {d} {e} {mark}")
        }
        Query::ListChain { .. } => {
            write!(out, ", handle {a}, handler 0x{b:08x}, parameter 0x{c:08x}")
        }
        Query::GetCardUsed { .. } => write!(out, ", status 0x{a:08x}, call-back 0x{b:08x}"),
        _ => Ok(()),
    }
}

// What an accepted call hands back beside its number.
fn print_more<W: Write>(out: &mut W, call: Call, values: [u32; 6], own: &[u8]) -> io::Result<()> {
    match call {
        Call::Config {
            width,
            access: Access::Read,
            ..
        }
        | Call::Data {
            width,
            access: Access::Read,
            ..
        } => {
            let value = values[0];
            let digits = digits(width);
            write!(out, ", 0x{value:0digits$x}")
        }
        Call::GetResource { .. } => {
            write!(out, ", ")?;
            descriptors(out, own)
        }
        Call::Ask(query) => print_found(out, query, values),
        _ => Ok(()),
    }
}

// A fast read has no number: its value says whether it was refused.
fn print_fast<W: Write>(out: &mut W, width: Width, reply: Reply) -> io::Result<()> {
    let value = reply.values[0];
    let digits = digits(width);
    let fault = if reply.refused { " fault" } else { "" };
    writeln!(out, " = 0x{value:0digits$x}{fault}")
}

// Prints the answer of a call, from what it left over its header and in its own buffer.
pub(crate) fn print_answer<W: Write>(
    out: &mut W,
    call: Call,
    answer: &[u8],
    own: &[u8],
) -> io::Result<()> {
    let reply = reply_at(answer);
    if let Call::Config {
        width,
        access: Access::FastRead,
        ..
    }
    | Call::Data {
        width,
        access: Access::FastRead,
        ..
    } = call
    {
        return print_fast(out, width, reply);
    }
    write!(out, " = {}", reply.number)?;
    if !reply.refused {
        print_more(out, call, reply.values, own)?;
    } else if matches!(call, Call::Load) & (reply.number == RECORD_REFUSED) {
        write!(out, ", record {}", reply.values[0])?;
    }
    writeln!(out)
}
