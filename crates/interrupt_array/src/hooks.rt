// Readers of the hook array, and of the loaded line and pin of a function. They read the records
// and not the registers, as later writes do not reroute.
ghost use Rattle.std.specs.Prelude.{◌≡◌, ◌-◌};
ghost use Rattle.board.specs.Layout.{record_byte};
ghost use Rattle.interrupt_array.specs.Hooks.{hook_at, line_of, pin_of, is_routed, on_line};

use board::handle::place;
use board::layout::{HOOK, Hooks, Records, record_byte};
use numbers::number::item_or;

// A hook: whose it is, the handler's address, and what is handed to the handler. Handle 0 is none.
#[derive(Clone, Copy)]
pub struct Hook {
    pub handle: u32,
    pub handler: u32,
    pub parameter: u32,
}

// The registers that say how a function interrupts.
const LINE: u32 = 0x3C;

const PIN: u32 = 0x3D;

// The last line that there is.
pub const LAST_LINE: u32 = 15;

// Entry e; zeros where there is none.
pub fn hook_at(hooks: &Hooks, e: u32) -> Hook
    ensures { result ≡ hook_at hooks.now e }
{
    let at = HOOK * (e as usize);
    Hook {
        handle: item_or(hooks, at, 0),
        handler: item_or(hooks, at + 1, 0),
        parameter: item_or(hooks, at + 2, 0),
    }
}

// A byte of the loaded record of a handle's function.
fn loaded(records: &Records, handle: u32, at: u32) -> u32
    ensures { result ≡ record_byte records.now (handle - 1) at }
{
    u32::from(record_byte(records, place(handle), at))
}

// The loaded line of a function.
pub fn line_of(records: &Records, handle: u32) -> u32
    ensures { result ≡ line_of records.now handle }
{
    loaded(records, handle, LINE)
}

// Its loaded pin.
fn pin_of(records: &Records, handle: u32) -> u32
    ensures { result ≡ pin_of records.now handle }
{
    loaded(records, handle, PIN)
}

// Whether a function interrupts at all, on a line that there is.
pub fn is_routed(records: &Records, handle: u32) -> bool
    ensures { result ≡ is_routed
        (pin_of records.now handle) (line_of records.now handle) }
{
    (1 <= pin_of(records, handle)) & (line_of(records, handle) <= LAST_LINE)
}

// Whether an entry is a hook on a line.
pub fn is_on_line(records: &Records, hook: Hook, line: u32) -> bool
    ensures { result ≡ on_line records.now line hook }
{
    hook.handle != 0 && line_of(records, hook.handle) == line
}
