// The calls that this board does not support: they always give FUNC_NOT_SUPPORTED.
ghost use Rattle.std.specs.Prelude.{◌≡◌};
ghost use Rattle.unsupported.specs.Unsupported.{special_cycle, get_routing, set_interrupt};

use board::status::{CallRefusal, Status};

pub fn special_cycle(bus: u8, data: u32) -> Status
    ensures { result ≡ special_cycle bus «data» }
{
    Err(CallRefusal::FuncNotSupported)
}

pub fn get_routing(handle: u32) -> Status
    ensures { result ≡ get_routing handle }
{
    Err(CallRefusal::FuncNotSupported)
}

pub fn set_interrupt(handle: u32, mode: u32) -> Status
    ensures { result ≡ set_interrupt handle mode }
{
    Err(CallRefusal::FuncNotSupported)
}
