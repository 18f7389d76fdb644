// Every call on a board through one function. Its contract is the step that the claims about runs
// speak of (`step`, crates/reference/specs/State.antt), so that they are claims about it. It
// decides nothing: each arm hands the lent parts to the call's own function, and makes the answer
// of what comes back.
ghost use Rattle.std.specs.Prelude.{◌≡◌};
ghost use Rattle.board.specs.Parts.{parts_lent, SameLoans};
ghost use Rattle.reference.specs.State.{outcome, step};

use crate::accesses::{config_access, data_access};
use crate::ask::ask;
use board::parts::Board;
use call::Call;
use call::answer::{Answer, of_status, of_verdict};
use card_used::used::set_card_used;
use data_window::find::data_address;
use image_writer::write::write_image;
use interrupt_array::hooks::Hook;
use interrupt_hook::chain::{hook_interrupt, unhook_interrupt};
use load::calls::load;
use reset::reset;
use resource::get_resource;

// Performs a call: its own bytes, an image or an output, are lent beside the board.
pub fn perform(call: Call, board: &mut Board<'_>, own: &mut [u8]) -> Answer
    ensures loans { SameLoans board.old board.new }
    ensures step { outcome result (parts_lent board.new) own.new
        ≡ step (parts_lent board.old) call own.old }
{
    match call {
        Call::Load => of_verdict(load(own, board)),
        Call::Reset => of_status(reset(
            board.header,
            board.records,
            board.registers,
            board.windows,
            board.offsets,
            board.hooks,
            board.used,
            board.cells,
        )),
        Call::WriteImage => of_verdict(write_image(board.header, board.records, own)),
        Call::Config {
            width,
            handle,
            register,
            access,
        } => config_access(board, width, handle, register, access),
        Call::Data {
            space,
            width,
            handle,
            address,
            access,
        } => data_access(board, data_address(space, width, handle, address), access),
        Call::GetResource { handle } => of_status(get_resource(
            board.header,
            board.records,
            board.registers,
            board.windows,
            handle,
            own,
        )),
        Call::HookInterrupt {
            handle,
            handler,
            parameter,
        } => {
            let hook = Hook {
                handle: handle,
                handler: handler,
                parameter: parameter,
            };
            of_status(hook_interrupt(board.header, board.records, board.hooks, hook))
        }
        Call::UnhookInterrupt { handle } => {
            of_status(unhook_interrupt(board.header, board.hooks, handle))
        }
        Call::SetCardUsed {
            handle,
            status,
            call_back,
        } => of_status(set_card_used(board.header, board.used, handle, status, call_back)),
        Call::Ask(query) => ask(query, board),
    }
}
