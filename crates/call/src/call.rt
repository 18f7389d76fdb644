// The calls on a board, in groups: a group is a row of the tables that say what a call may touch
// and when it is struck out. Operations are numbered in docs/SCRIPT.md. Searches and data calls
// name what they search for, or an address, in a call edition.
use board::address::{BusAddress, CpuAddress};
use board::space::Space;
use call_edition::edition::InEdition;
use numbers::number::Width;

// What is done to registers or cells.
#[derive(Clone, Copy)]
pub enum Access {
    // Operation 6 of registers, 9 of cells.
    Read,
    // Operation 7 of registers, 10 of cells.
    FastRead,
    // Operation 8 of registers, 11 of cells.
    Write { value: u32 },
}

// A call that changes nothing and has no buffer of its own: its answer is all there is.
#[derive(Clone, Copy)]
pub enum Query {
    // Operation 4.
    FindPciDevice { id: InEdition, index: u32 },
    // Operation 5.
    FindPciClasscode { class: InEdition, index: u32 },
    // Operation 12.
    BusToCpu { handle: u32, address: BusAddress },
    // Operation 13.
    CpuToBus { handle: u32, address: CpuAddress },
    // Operation 18.
    ListChain { line: u32, index: u32 },
    // Operation 19.
    GetCardUsed { handle: u32 },
    // Operation 21, always refused with -2.
    SpecialCycle { bus: u8, message: u32 },
    // Operation 22, always refused with -2.
    GetRouting { handle: u32 },
    // Operation 23, always refused with -2.
    SetInterrupt { handle: u32, mode: u32 },
    // Operation 14.
    ListWindow { index: u32 },
}

// A call with its arguments; the bytes that it reads or fills are lent beside it.
#[derive(Clone, Copy)]
pub enum Call {
    // Operation 1.
    Load,
    // Operation 2.
    Reset,
    // Operation 3.
    WriteImage,
    // Operations 6 to 8, by the access.
    Config {
        width: Width,
        handle: u32,
        register: u8,
        access: Access,
    },
    // Operations 9 to 11, by the access.
    Data {
        space: Space,
        width: Width,
        handle: u32,
        address: InEdition,
        access: Access,
    },
    // Operation 15.
    GetResource {
        handle: u32,
    },
    // Operation 16.
    HookInterrupt {
        handle: u32,
        handler: u32,
        parameter: u32,
    },
    // Operation 17.
    UnhookInterrupt {
        handle: u32,
    },
    // Operation 20.
    SetCardUsed {
        handle: u32,
        status: u32,
        call_back: u32,
    },
    // Operations 4, 5, 12 to 14, 18, 19 and 21 to 23, by the query.
    Ask(Query),
}
