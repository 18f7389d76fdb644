// The fields of a call's header, and back: a row for each call, in the order of the operations'
// numbers.
ghost use Rattle.std.specs.Prelude.{◌≡◌};
ghost use Rattle.call.specs.declared.call.Call.TheVariants.{Ask};
ghost use Rattle.call_encoding.specs.Format.{
  exchanged,
  fields,
  with_edition,
  fields_of,
  candidate,
  width_of_byte,
  space_of_byte,
};

use board::address::{BusAddress, CpuAddress};
use board::from_c::width_from_c;
use board::space::Space;
use call::{Access, Call, Query};
use call_edition::edition::{InEdition, in_edition};
use numbers::number::{Width, bytes};

// The fields of a header; what a call does not have is 0.
#[derive(Clone, Copy)]
pub struct Fields {
    pub operation: u8,
    pub width: u8,
    pub space: u8,
    pub register: u8,
    pub handle: u32,
    pub a: u32,
    pub b: u32,
    pub c: u32,
}

fn row(operation: u8, width: u8, space: u8, register: u8, handle: u32, a: u32, b: u32) -> Fields
    ensures { result ≡ fields operation width space register handle a b }
{
    Fields {
        operation: operation,
        width: width,
        space: space,
        register: register,
        handle: handle,
        a: a,
        b: b,
        c: 0,
    }
}

// Argument c of an edition, and back: 0 and 2 are exchanged, so that c 0 is the later text.
fn edition_exchanged(edition: u32) -> u32
    ensures { result ≡ exchanged edition }
{
    match edition {
        0 => 2,
        2 => 0,
        other => other,
    }
}

// The fields with the edition in which a call names something.
fn with_edition(named: InEdition, f: Fields) -> Fields
    ensures { result ≡ with_edition named f }
{
    Fields {
        c: edition_exchanged(named.edition),
        ..f
    }
}

// The fields of a query.
fn query_fields(query: Query) -> Fields
    ensures { result ≡ fields_of (Ask query) }
{
    match query {
        Query::FindPciDevice { id, index } => {
            with_edition(id, row(4, 0, 0, 0, 0, id.number, index))
        }
        Query::FindPciClasscode { class, index } => {
            with_edition(class, row(5, 0, 0, 0, 0, class.number, index))
        }
        Query::BusToCpu { handle, address } => row(12, 0, 0, 0, handle, address.number(), 0),
        Query::CpuToBus { handle, address } => row(13, 0, 0, 0, handle, address.number(), 0),
        Query::ListWindow { index } => row(14, 0, 0, 0, 0, index, 0),
        Query::ListChain { line, index } => row(18, 0, 0, 0, 0, line, index),
        Query::GetCardUsed { handle } => row(19, 0, 0, 0, handle, 0, 0),
        Query::SpecialCycle { bus, message } => row(21, 0, 0, bus, 0, message, 0),
        Query::GetRouting { handle } => row(22, 0, 0, 0, handle, 0, 0),
        Query::SetInterrupt { handle, mode } => row(23, 0, 0, 0, handle, mode, 0),
    }
}

// The fields of a call.
pub fn fields_of(call: Call) -> Fields
    ensures { result ≡ fields_of call }
{
    match call {
        Call::Load => row(1, 0, 0, 0, 0, 0, 0),
        Call::Reset => row(2, 0, 0, 0, 0, 0, 0),
        Call::WriteImage => row(3, 0, 0, 0, 0, 0, 0),
        Call::Config {
            width,
            handle,
            register,
            access,
        } => {
            let w = bytes(width);
            match access {
                Access::Read => row(6, w, 0, register, handle, 0, 0),
                Access::FastRead => row(7, w, 0, register, handle, 0, 0),
                Access::Write { value } => row(8, w, 0, register, handle, value, 0),
            }
        }
        Call::Data {
            space,
            width,
            handle,
            address,
            access,
        } => {
            let w = bytes(width);
            let s = space.number();
            let a = address.number;
            match access {
                Access::Read => with_edition(address, row(9, w, s, 0, handle, a, 0)),
                Access::FastRead => with_edition(address, row(10, w, s, 0, handle, a, 0)),
                Access::Write { value } => {
                    with_edition(address, row(11, w, s, 0, handle, a, value))
                }
            }
        }
        Call::GetResource { handle } => row(15, 0, 0, 0, handle, 0, 0),
        Call::HookInterrupt {
            handle,
            handler,
            parameter,
        } => row(16, 0, 0, 0, handle, handler, parameter),
        Call::UnhookInterrupt { handle } => row(17, 0, 0, 0, handle, 0, 0),
        Call::SetCardUsed {
            handle,
            status,
            call_back,
        } => row(20, 0, 0, 0, handle, status, call_back),
        Call::Ask(query) => query_fields(query),
    }
}

// The width of a byte; a byte that is no width is read as 1.
fn width_of_byte(n: u8) -> Width
    ensures { result ≡ width_of_byte n }
{
    width_from_c(u32::from(n)).unwrap_or(Width::Byte)
}

// The space of a byte; a byte that is no space is read as 0.
fn space_of_byte(n: u8) -> Space
    ensures { result ≡ space_of_byte n }
{
    match n {
        1 => Space::Io,
        _ => Space::Memory,
    }
}

// The only call that can have these fields, which may still be those of no call.
#[tactic(auto, unfolding(crate::specs::Format::candidate), using(crate::proofs::Calls::unknown))]
pub fn call_of(f: Fields) -> Call
    ensures { result ≡ candidate f }
{
    let operation = f.operation;
    let width = width_of_byte(f.width);
    let space = space_of_byte(f.space);
    let register = f.register;
    let handle = f.handle;
    let a = f.a;
    let b = f.b;
    let named = in_edition(a, edition_exchanged(f.c));
    match operation {
        1 => Call::Load,
        2 => Call::Reset,
        3 => Call::WriteImage,
        4 => Call::Ask(Query::FindPciDevice {
            id: named,
            index: b,
        }),
        5 => Call::Ask(Query::FindPciClasscode {
            class: named,
            index: b,
        }),
        6 => Call::Config {
            width: width,
            handle: handle,
            register: register,
            access: Access::Read,
        },
        7 => Call::Config {
            width: width,
            handle: handle,
            register: register,
            access: Access::FastRead,
        },
        8 => Call::Config {
            width: width,
            handle: handle,
            register: register,
            access: Access::Write { value: a },
        },
        9 => Call::Data {
            space: space,
            width: width,
            handle: handle,
            address: named,
            access: Access::Read,
        },
        10 => Call::Data {
            space: space,
            width: width,
            handle: handle,
            address: named,
            access: Access::FastRead,
        },
        11 => Call::Data {
            space: space,
            width: width,
            handle: handle,
            address: named,
            access: Access::Write { value: b },
        },
        12 => Call::Ask(Query::BusToCpu {
            handle: handle,
            address: BusAddress::of(a),
        }),
        13 => Call::Ask(Query::CpuToBus {
            handle: handle,
            address: CpuAddress::of(a),
        }),
        14 => Call::Ask(Query::ListWindow { index: a }),
        15 => Call::GetResource { handle: handle },
        16 => Call::HookInterrupt {
            handle: handle,
            handler: a,
            parameter: b,
        },
        17 => Call::UnhookInterrupt { handle: handle },
        18 => Call::Ask(Query::ListChain { line: a, index: b }),
        19 => Call::Ask(Query::GetCardUsed { handle: handle }),
        20 => Call::SetCardUsed {
            handle: handle,
            status: a,
            call_back: b,
        },
        21 => Call::Ask(Query::SpecialCycle {
            bus: register,
            message: a,
        }),
        22 => Call::Ask(Query::GetRouting { handle: handle }),
        23 => Call::Ask(Query::SetInterrupt {
            handle: handle,
            mode: a,
        }),
        _ => Call::Load,
    }
}
