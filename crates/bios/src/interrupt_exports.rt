// Hooks, chains and used marks for C, and the calls that always give -2.
ghost use Rattle.std.specs.Prelude.{◌≡◌};
ghost use Rattle.interrupt_array.specs.Hooks.{chain_of};
ghost use Rattle.board.specs.Statuses.{number_of};
ghost use Rattle.interrupt_hook.specs.Chain.{hook_interrupt, unhook_interrupt};
ghost use Rattle.card_used.specs.Used.{get_card_used, set_card_used};
ghost use Rattle.unsupported.specs.Unsupported.{special_cycle, get_routing, set_interrupt};
ghost use Rattle.bios.specs.Exports.{
  left,
  hooks_left,
  used_left,
  shown,
  shown_hook,
  used_numbers,
  used_shown,
};

use board::layout::{Header, Hooks, Records, Used};
use board::status::{Number, number_of};
use call::answer::{Values, of_chain};
use card_used::used::{get_card_used, set_card_used};
use interrupt_array::hooks::Hook;
use interrupt_hook::chain::{hook_interrupt, unhook_interrupt};
use interrupt_list::listing::list_chain;
use unsupported::{get_routing, set_interrupt, special_cycle};

// Puts a handler and its parameter last on the chain of a function's line.
#[unsafe(no_mangle)]
pub extern "C" fn bios_hook_interrupt(
    header: &Header,
    records: &Records,
    hooks: &mut Hooks,
    handle: u32,
    handler: u32,
    parameter: u32,
) -> i32
    ensures { left result hooks.new
        ≡ hooks_left (hook_interrupt header.now records.now hooks.old
        handle handler parameter) }
{
    let hook = Hook {
        handle: handle,
        handler: handler,
        parameter: parameter,
    };
    number_of(hook_interrupt(header, records, hooks, hook)).0
}

// Takes a function's hook from its chain.
#[unsafe(no_mangle)]
pub extern "C" fn bios_unhook_interrupt(header: &Header, hooks: &mut Hooks, handle: u32) -> i32
    ensures { left result hooks.new
        ≡ hooks_left (unhook_interrupt header.now hooks.old handle) }
{
    number_of(unhook_interrupt(header, hooks, handle)).0
}

// The hook at an index of a line's chain, or a number; handle, handler and parameter go to the
// first three of `values`, zeros to the rest.
#[unsafe(no_mangle)]
pub extern "C" fn bios_list_chain(
    records: &Records,
    hooks: &Hooks,
    line: u32,
    index: u32,
    values: &mut Values,
) -> i32
    ensures { shown result values.new
        ≡ shown_hook (chain_of records.now hooks.now line) line index }
{
    let a = of_chain(list_chain(records, hooks, line, index));
    let v = a.values;
    *values = v;
    a.number
}

// The used status and call-back address of a function; zeros where it is refused.
#[unsafe(no_mangle)]
pub extern "C" fn bios_get_card_used(
    header: &Header,
    used: &Used,
    handle: u32,
    mark: &mut u32,
    call_back: &mut u32,
) -> i32
    ensures { used_numbers result mark.new call_back.new
        ≡ used_shown (get_card_used header.now used.now handle) }
{
    match get_card_used(header, used, handle) {
        Ok(found) => {
            *mark = found.status;
            *call_back = found.call_back;
            Number::SUCCESSFUL.0
        }
        Err(refusal) => {
            *mark = 0;
            *call_back = 0;
            refusal.number().0
        }
    }
}

// Sets them.
#[unsafe(no_mangle)]
pub extern "C" fn bios_set_card_used(
    header: &Header,
    used: &mut Used,
    handle: u32,
    mark: u32,
    call_back: u32,
) -> i32
    ensures { left result used.new
        ≡ used_left (set_card_used header.now used.old handle mark call_back) }
{
    number_of(set_card_used(header, used, handle, mark, call_back)).0
}

#[unsafe(no_mangle)]
pub extern "C" fn bios_special_cycle(bus: u8, message: u32) -> i32
    ensures { result ≡ number_of (special_cycle bus message) }
{
    number_of(special_cycle(bus, message)).0
}

#[unsafe(no_mangle)]
pub extern "C" fn bios_get_routing(handle: u32) -> i32
    ensures { result ≡ number_of (get_routing handle) }
{
    number_of(get_routing(handle)).0
}

#[unsafe(no_mangle)]
pub extern "C" fn bios_set_interrupt(handle: u32, mode: u32) -> i32
    ensures { result ≡ number_of (set_interrupt handle mode) }
{
    number_of(set_interrupt(handle, mode)).0
}
