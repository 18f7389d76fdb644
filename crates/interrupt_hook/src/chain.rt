// Hooking and unhooking an interrupt. One array holds all chains:
//   room   a function has one hook at most, so 16 entries do for all lines
//   order  lines ascending, and the hooks of a line together in hooking order; so the array follows
//          from the chains, and boards with equal chains have equal arrays
ghost use Rattle.std.specs.Prelude.{◌≡◌};
ghost use Rattle.interrupt_hook.specs.Chain.{
  is_free,
  hook_outcome,
  hook_interrupt,
  unhook_interrupt,
};

use crate::position::{position_for, position_of};
use board::handle::is_handle;
use board::layout::{FUNCTIONS, Header, Hooks, Records};
use board::status::{CallRefusal, Status};
use interrupt_array::hooks::{Hook, hook_at, is_routed, line_of};
use interrupt_edit::change::{Change, apply};

// The last entry of the array.
const LAST: u32 = FUNCTIONS as u32 - 1;

// Whether a function has no hook yet, and there is room for one more: there always is where each
// function has one hook at most.
fn is_free(hooks: &Hooks, handle: u32) -> bool
    ensures { result ≡ is_free hooks.now handle }
{
    position_of(hooks, handle).is_none() & (hook_at(hooks, LAST).handle == 0)
}

// Puts a hook last on the chain of its function's line. This and the next are no calls, so that a
// refusal costs its tests alone.
#[inline(always)]
pub fn hook_interrupt(header: &Header, records: &Records, hooks: &mut Hooks, hook: Hook) -> Status
    ensures { hook_outcome result hooks.new
        ≡ hook_interrupt header.now records.now hooks.old
        hook.handle hook.handler hook.parameter }
{
    if !is_handle(header, hook.handle) {
        return Err(CallRefusal::BadHandle);
    }
    if !is_routed(records, hook.handle) {
        return Err(CallRefusal::GeneralError);
    }
    if !is_free(hooks, hook.handle) {
        return Err(CallRefusal::SetFailed);
    }
    let position = position_for(records, hooks, line_of(records, hook.handle)) as usize;
    apply(
        hooks,
        Change::In {
            position: position,
            hook: hook,
        },
    );
    Ok(())
}

// Takes a function's hook from its chain.
#[inline(always)]
pub fn unhook_interrupt(header: &Header, hooks: &mut Hooks, handle: u32) -> Status
    ensures { hook_outcome result hooks.new
        ≡ unhook_interrupt header.now hooks.old handle }
{
    if !is_handle(header, handle) {
        return Err(CallRefusal::BadHandle);
    }
    let position = position_of(hooks, handle).ok_or(CallRefusal::GeneralError)? as usize;
    apply(hooks, Change::Out { position: position });
    Ok(())
}
