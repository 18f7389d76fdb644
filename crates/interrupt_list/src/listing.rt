// The listing of a line's chain: one pass over the array of all hooks, which picks those of the
// line. They stand there in hooking order.
ghost use Rattle.std.specs.Prelude.{◌≡◌};
ghost use Rattle.interrupt_array.specs.Hooks.{chain_of};
ghost use Rattle.interrupt_list.specs.Listing.{listed_hook, ListsChain};

use board::layout::{FUNCTIONS, Hooks, Records};
use board::status::CallRefusal;
use interrupt_array::hooks::{Hook, LAST_LINE, hook_at, is_on_line};

// The hook with so many hooks of its line before it.
#[inline(always)]
fn listed_hook(records: &Records, hooks: &Hooks, line: u32, index: u32) -> Result<Hook, CallRefusal>
    ensures { result ≡ listed_hook (chain_of records.now hooks.now line) index }
{
    let mut before = index;
    // Invariant: index `before` of the line's hooks from entry e on gives what `index` gives.
    for e in 0..FUNCTIONS as u32 {
        let hook = hook_at(hooks, e);
        if is_on_line(records, hook, line) {
            if before == 0 {
                return Ok(hook);
            }
            before -= 1;
        }
    }
    Err(CallRefusal::DeviceNotFound)
}

// The hook at an index of a line's chain, from 0: refused where the line is above 15, and where the
// index is past the end. It is no call, so that the hook goes to its reader without memory between.
#[inline(always)]
pub fn list_chain(
    records: &Records,
    hooks: &Hooks,
    line: u32,
    index: u32,
) -> Result<Hook, CallRefusal>
    ensures { ListsChain (chain_of records.now hooks.now line) line index result }
{
    if LAST_LINE < line {
        return Err(CallRefusal::GeneralError);
    }
    listed_hook(records, hooks, line, index)
}
