// Card-used marks: of each function two numbers, the status and the call-back address.
ghost use Rattle.std.specs.Prelude.{◌≡◌, ◌+◌, ◌*◌, ◌<◌, length};
ghost use Rattle.board.specs.Layout.{mark_size};
ghost use Rattle.card_used.specs.Used.{
  mark_at,
  new_mark,
  mark_put,
  get_card_used,
  mark_outcome,
  set_card_used,
};

use board::handle::{is_handle, place};
use board::layout::{Header, MARK, Used};
use board::status::{CallRefusal, Status};
use numbers::number::item_or;

// What a mark says: 0 free, 1 in use, 2 in use with a call-back or 3 may be taken over; and the
// call-back address.
#[derive(Clone, Copy)]
pub struct Mark {
    pub status: u32,
    pub call_back: u32,
}

// The highest status, may be taken over; and the one that has a call-back.
const TAKE_OVER: u32 = 3;

const WITH_CALL_BACK: u32 = 2;

// The mark of the function at a place, from 0.
fn mark_at(used: &Used, function: u32) -> Mark
    ensures { result ≡ mark_at used.now function }
{
    let at = MARK * (function as usize);
    Mark {
        status: item_or(used, at, 0),
        call_back: item_or(used, at + 1, 0),
    }
}

// The mark of a function.
pub fn get_card_used(header: &Header, used: &Used, handle: u32) -> Result<Mark, CallRefusal>
    ensures { result ≡ get_card_used header.now used.now handle }
{
    if is_handle(header, handle) {
        return Ok(mark_at(used, place(handle)));
    }
    Err(CallRefusal::BadHandle)
}

// A new mark: the call-back address is kept for one status alone.
fn new_mark(status: u32, call_back: u32) -> Mark
    ensures { result ≡ new_mark status call_back }
{
    Mark {
        status: status,
        call_back: if status == WITH_CALL_BACK {
            call_back
        } else {
            0
        },
    }
}

// Stores the mark of the function at a place, from 0.
fn put(used: &mut [u32], function: usize, mark: Mark)
    requires { mark_size * function + 1 < length used.old }
    ensures { used.new ≡ mark_put used.old function mark }
{
    let at = MARK * function;
    used[at] = mark.status;
    used[at + 1] = mark.call_back;
}

// Sets the mark of a function.
pub fn set_card_used(
    header: &Header,
    used: &mut Used,
    handle: u32,
    status: u32,
    call_back: u32,
) -> Status
    ensures { mark_outcome result used.new
        ≡ set_card_used header.now used.old handle status call_back }
{
    if !is_handle(header, handle) {
        return Err(CallRefusal::BadHandle);
    }
    if TAKE_OVER < status {
        return Err(CallRefusal::GeneralError);
    }
    put(used, place(handle) as usize, new_mark(status, call_back));
    Ok(())
}
