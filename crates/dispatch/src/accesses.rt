// Accesses to registers and to cells: a read, a fast read or a write, each by its own function.
ghost use Rattle.std.specs.Prelude.{◌≡◌};
ghost use Rattle.board.specs.Parts.{parts_lent, SameLoans, with_registers, with_cells};
ghost use Rattle.reference.specs.State.{config_outcome, config_access, data_outcome, data_access};

use board::parts::Board;
use call::Access;
use call::answer::{Answer, of_fast_read, of_read, of_status};
use config_read::read::{fast_read_config, read_config};
use config_write::write::write_config;
use data_access::data::{fast_read_data, read_data, write_data};
use data_window::map::DataMap;
use data_window::named::NamedAddress;
use numbers::number::Width;

// A configuration access: it leaves registers and the kept list.
pub(crate) fn config_access(
    board: &mut Board<'_>,
    width: Width,
    handle: u32,
    register: u8,
    access: Access,
) -> Answer
    ensures loans { SameLoans board.old board.new }
    ensures outcome { config_outcome result board.new.registers.now board.new.windows.now
        ≡ config_access
        board.old.header.now board.old.records.now
        board.old.registers.now board.old.windows.now
        width handle register access }
    ensures rest { parts_lent board.new
        ≡ with_registers board.new.registers.now board.new.windows.now (parts_lent board.old) }
{
    match access {
        Access::Read => {
            of_read(read_config(board.header, board.registers, width, handle, register))
        }
        Access::FastRead => {
            of_fast_read(fast_read_config(board.header, board.registers, width, handle, register))
        }
        Access::Write { value } => of_status(write_config(
            board.header,
            board.records,
            board.registers,
            board.windows,
            width,
            handle,
            register,
            value,
        )),
    }
}

// A data access: it leaves cells.
pub(crate) fn data_access(board: &mut Board<'_>, at: NamedAddress, access: Access) -> Answer
    ensures loans { SameLoans board.old board.new }
    ensures outcome { data_outcome result board.new.cells.now
        ≡ data_access
        board.old.header.now board.old.records.now
        board.old.windows.now board.old.offsets.now
        board.old.cells.now at.space at.width at.handle at.address access }
    ensures rest { parts_lent board.new ≡ with_cells board.new.cells.now (parts_lent board.old) }
{
    let cells = &mut *board.cells;
    let map = DataMap {
        header: board.header,
        records: board.records,
        windows: board.windows,
        offsets: board.offsets,
    };
    match access {
        Access::Read => of_read(read_data(map, cells, at)),
        Access::FastRead => of_fast_read(fast_read_data(map, cells, at)),
        Access::Write { value } => of_status(write_data(map, cells, at, value)),
    }
}
