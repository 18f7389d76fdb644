// Positions in the hook array: where a new hook goes, and where a function's hook stands. A new
// hook goes after the last one on its line or on a line below it, so that lines stay together and
// ascending, and it is last on its own.
ghost use Rattle.std.specs.Prelude.{◌≡◌, cond, Some, None};
ghost use Rattle.interrupt_hook.specs.Chain.{up_to_line, position_for, position_of, is_hooked};

use board::layout::{FUNCTIONS, Hooks, Records};
use interrupt_array::hooks::{Hook, hook_at, line_of};

// Whether an entry is a hook on a line or on one below it.
fn is_up_to_line(records: &Records, hook: Hook, line: u32) -> bool
    ensures { result ≡ up_to_line records.now line hook }
{
    hook.handle != 0 && line_of(records, hook.handle) <= line
}

// Where a new hook on a line goes: after the last hook on it or on a line below it.
pub(crate) fn position_for(records: &Records, hooks: &Hooks, line: u32) -> u32
    ensures { result ≡ position_for records.now hooks.now line }
{
    // Invariant: the entries up to e give the position that all of them give.
    for e in (0..FUNCTIONS as u32).rev() {
        if is_up_to_line(records, hook_at(hooks, e), line) {
            return e + 1;
        }
    }
    0
}

// The first entry with a handle, where there is one.
pub(crate) fn position_of(hooks: &Hooks, handle: u32) -> Option<u32>
    ensures { result ≡ cond (is_hooked hooks.now handle) (Some (position_of hooks.now handle)) None }
{
    (0..FUNCTIONS as u32).find(|e| hook_at(hooks, *e).handle == handle)
}
