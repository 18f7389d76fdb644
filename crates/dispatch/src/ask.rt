// The calls that change nothing. The board is shared here, so that the types already say it.
ghost use Rattle.std.specs.Prelude.{List, ◌≡◌, ℕ};
ghost use Rattle.board.specs.Parts.{parts};
ghost use Rattle.reference.specs.State.{queried};

use address_convert::convert::{bus_to_cpu, cpu_to_bus};
use board::parts::Board;
use call::Query;
use call::answer::{Answer, of_chain, of_listing, of_status, of_to_bus, of_to_cpu, of_used};
use call::searches::{class_answer, device_answer};
use card_used::used::get_card_used;
use interrupt_list::listing::list_chain;
use unsupported::{get_routing, set_interrupt, special_cycle};
use window_listing::listing::list_window;

// The answer of a call that changes nothing. No query of document 01 asks even how many cells there
// are, so it is stated whatever they and their offsets are.
pub(crate) fn ask(query: Query, board: &Board<'_>) -> Answer
    ensures { (offsets cells : List ℕ) → result ≡ queried
        (parts board.now.header.now board.now.records.now board.now.registers.now
        board.now.windows.now offsets board.now.hooks.now board.now.used.now cells)
        query }
{
    match query {
        Query::FindPciDevice { id, index } => {
            device_answer(board.header, board.registers, id, index)
        }
        Query::FindPciClasscode { class, index } => {
            class_answer(board.header, board.registers, class, index)
        }
        Query::BusToCpu { handle, address } => {
            of_to_cpu(bus_to_cpu(board.header, board.records, handle, address))
        }
        Query::CpuToBus { handle, address } => {
            of_to_bus(cpu_to_bus(board.header, board.records, handle, address))
        }
        Query::ListChain { line, index } => {
            of_chain(list_chain(board.records, board.hooks, line, index))
        }
        Query::GetCardUsed { handle } => {
            of_used(get_card_used(board.header, board.used, handle))
        }
        Query::SpecialCycle { bus, message } => of_status(special_cycle(bus, message)),
        Query::GetRouting { handle } => of_status(get_routing(handle)),
        Query::SetInterrupt { handle, mode } => of_status(set_interrupt(handle, mode)),
        Query::ListWindow { index } => of_listing(list_window(board.windows, index)),
    }
}
