// The checks of a configuration call, once for reads and writes: which function it is for.
ghost use Rattle.std.specs.Prelude.{◌≡◌};
ghost use Rattle.board.specs.Handles.{is_handle};
ghost use Rattle.numbers.specs.Numbers.{bytes};
ghost use Rattle.config_read.specs.Target.{fits, target};

use board::handle::{is_handle, place};
use board::layout::Header;
use board::status::CallRefusal;
use numbers::number::{Width, is_multiple};

// Whether an access of a width may stand at a register; as the number is a byte, none that is
// aligned passes the last register.
fn fits(register: u8, width: Width) -> bool
    ensures { result ≡ fits (bytes width) register }
{
    is_multiple(u32::from(register), width)
}

// The place, from 0, of the function that an access through a handle is for; else BAD_HANDLE, or
// then BAD_REGISTER_NUMBER.
#[tactic(auto, unfolding(crate::specs::Target::target))]
pub fn target_of(
    header: &Header,
    width: Width,
    handle: u32,
    register: u8,
) -> Result<u32, CallRefusal>
    ensures { result
        ≡ target (is_handle header.now handle) (bytes width) handle register }
{
    if !is_handle(header, handle) {
        return Err(CallRefusal::BadHandle);
    }
    if !fits(register, width) {
        return Err(CallRefusal::BadRegisterNumber);
    }
    Ok(place(handle))
}
