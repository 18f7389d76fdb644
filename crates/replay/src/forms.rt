// A call as it is printed: its name and its arguments, as a caller writes them. Addresses, IDs and
// what is written are hexadecimal, handles, indices and lengths decimal.
use board::space::Space;
use call::{Access, Call, Query};
use call_edition::edition::InEdition;
use numbers::number::{Width, bytes};
use std::io::Write;
use std::{fmt, io};

// The call edition as a last argument, which stands there where it is not the later text.
#[derive(Clone, Copy)]
struct Edition(u32);

impl fmt::Display for Edition {
    fn fmt<W: fmt::Write>(&self, f: &mut fmt::Formatter<W>) -> fmt::Result {
        match self.0 {
            2 => Ok(()),
            other => write!(f, ", edition {other}"),
        }
    }
}

// How a width stands in a name.
fn width_name(width: Width) -> &'static str {
    match width {
        Width::Byte => "byte",
        Width::Word => "word",
        Width::Long => "longword",
    }
}

// How a space stands in a name.
fn space_name(space: Space) -> &'static str {
    match space {
        Space::Memory => "mem",
        Space::Io => "io",
    }
}

// The hexadecimal digits of a value of a width.
pub(crate) fn digits(width: Width) -> usize {
    2 * usize::from(bytes(width))
}

fn print_config<W: Write>(
    out: &mut W,
    width: Width,
    handle: u32,
    register: u8,
    access: Access,
) -> io::Result<()> {
    let name = width_name(width);
    let digits = digits(width);
    match access {
        Access::Read => write!(out, "read_config_{name}({handle}, 0x{register:02x})"),
        Access::FastRead => write!(out, "fast_read_config_{name}({handle}, 0x{register:02x})"),
        Access::Write { value } => {
            write!(
                out,
                "write_config_{name}({handle}, 0x{register:02x}, 0x{value:0digits$x})"
            )
        }
    }
}

fn print_data<W: Write>(
    out: &mut W,
    space: Space,
    width: Width,
    handle: u32,
    named: InEdition,
    access: Access,
) -> io::Result<()> {
    let space = space_name(space);
    let name = width_name(width);
    let digits = digits(width);
    let address = named.number;
    let edition = Edition(named.edition);
    match access {
        Access::Read => write!(
            out,
            "read_{space}_{name}({handle}, 0x{address:08x}{edition})"
        ),
        Access::FastRead => {
            write!(
                out,
                "fast_read_{space}_{name}({handle}, 0x{address:08x}{edition})"
            )
        }
        Access::Write { value } => {
            write!(
                out,
                "write_{space}_{name}({handle}, 0x{address:08x}, 0x{value:0digits$x}{edition})"
            )
        }
    }
}

fn print_query<W: Write>(out: &mut W, query: Query) -> io::Result<()> {
    match query {
        Query::FindPciDevice { id, index } => {
            let edition = Edition(id.edition);
            write!(
                out,
                "find_pci_device(0x{:08x}, {index}{edition})",
                id.number
            )
        }
        Query::FindPciClasscode { class, index } => {
            let edition = Edition(class.edition);
            write!(
                out,
                "find_pci_classcode(0x{:08x}, {index}{edition})",
                class.number
            )
        }
        Query::BusToCpu { handle, address } => {
            write!(out, "bus_to_cpu({handle}, 0x{:08x})", address.number())
        }
        Query::CpuToBus { handle, address } => {
            write!(out, "cpu_to_bus({handle}, 0x{:08x})", address.number())
        }
        Query::ListWindow { index } => write!(out, "list_window({index})"),
        Query::ListChain { line, index } => write!(out, "list_chain({line}, {index})"),
        Query::GetCardUsed { handle } => write!(out, "get_card_used({handle})"),
        Query::SpecialCycle { bus, message } => {
            write!(out, "special_cycle(0x{bus:02x}, 0x{message:08x})")
        }
        Query::GetRouting { handle } => write!(out, "get_routing({handle})"),
        Query::SetInterrupt { handle, mode } => {
            write!(out, "set_interrupt({handle}, 0x{mode:08x})")
        }
    }
}

// Prints a call with the length of its own buffer where that counts.
pub(crate) fn print_call<W: Write>(out: &mut W, call: Call, own: u32) -> io::Result<()> {
    match call {
        Call::Load => write!(out, "load({own} bytes)"),
        Call::Reset => write!(out, "reset()"),
        Call::WriteImage => write!(out, "write_image({own} bytes)"),
        Call::Config {
            width,
            handle,
            register,
            access,
        } => print_config(out, width, handle, register, access),
        Call::Data {
            space,
            width,
            handle,
            address,
            access,
        } => print_data(out, space, width, handle, address, access),
        Call::GetResource { handle } => write!(out, "get_resource({handle}, {own} bytes)"),
        Call::HookInterrupt {
            handle,
            handler,
            parameter,
        } => write!(
            out,
            "hook_interrupt({handle}, 0x{handler:08x}, 0x{parameter:08x})"
        ),
        Call::UnhookInterrupt { handle } => write!(out, "unhook_interrupt({handle})"),
        Call::SetCardUsed {
            handle,
            status,
            call_back,
        } => write!(
            out,
            "set_card_used({handle}, 0x{status:08x}, 0x{call_back:08x})"
        ),
        Call::Ask(query) => print_query(out, query),
    }
}
