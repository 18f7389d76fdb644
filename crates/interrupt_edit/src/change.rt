// A hook comes into the array or goes out of it, and the others move by one. Every number of the
// new array is worked out from a copy of the old one, so that no order of moves has to be right.
ghost use Rattle.std.specs.Prelude.{◌≡◌, ◌*◌, ◌≤◌};
ghost use Rattle.board.specs.Layout.{functions_max, hook_size};
ghost use Rattle.interrupt_array.specs.Hooks.{hook_number, array_number, array_of, hook_at};
ghost use Rattle.interrupt_edit.specs.Changes.{after_hook, after_unhook, after_change};

use board::layout::{FUNCTIONS, HOOK, Hooks};
use interrupt_array::hooks::Hook;
use numbers::number::item_or;

// What happens to the array: a hook comes in at a position, or the one there goes out.
#[derive(Clone, Copy)]
pub enum Change {
    In { position: usize, hook: Hook },
    Out { position: usize },
}

// Number k of a hook.
fn number_of(hook: Hook, k: usize) -> u32
    ensures { result ≡ hook_number hook k }
{
    match k {
        0 => hook.handle,
        1 => hook.handler,
        _ => hook.parameter,
    }
}

// Number j of the array once a new hook stands at a position and those from there on have moved up
// by one.
fn hooked_number(old: &Hooks, position: usize, new: Hook, j: usize) -> u32
    ensures { result ≡ array_number (after_hook (hook_at old.now) position new) j }
{
    if j / HOOK < position {
        return item_or(old, j, 0);
    }
    if j / HOOK == position {
        return number_of(new, j % HOOK);
    }
    item_or(old, j - HOOK, 0)
}

// Number j of the array once the hook at a position is gone and those after it have moved down by
// one.
fn unhooked_number(old: &Hooks, position: usize, j: usize) -> u32
    requires { j ≤ functions_max * hook_size }
    ensures { result ≡ array_number (after_unhook (hook_at old.now) position) j }
{
    if position <= j / HOOK {
        return item_or(old, j + HOOK, 0);
    }
    item_or(old, j, 0)
}

// Number j of the array after a change.
fn number_after(old: &Hooks, change: Change, j: usize) -> u32
    requires { j ≤ functions_max * hook_size }
    ensures { result ≡ array_number (after_change change (hook_at old.now)) j }
{
    match change {
        Change::In { position, hook } => hooked_number(old, position, hook, j),
        Change::Out { position } => unhooked_number(old, position, j),
    }
}

// Makes a change to the array.
pub fn apply(hooks: &mut Hooks, change: Change)
    ensures { hooks.new ≡ array_of (after_change change (hook_at hooks.old)) }
{
    let old = *hooks;
    // Invariant: the first j numbers are those of the array after the change.
    for j in 0..HOOK * FUNCTIONS {
        hooks[j] = number_after(&old, change, j);
    }
}
