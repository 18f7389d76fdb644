// What the call `find_window` hands back of a finding, request E3: which window and how many bytes
// remain to its end, or the number and the reason.
ghost use Rattle.std.specs.Prelude.{◌≡◌};
ghost use Rattle.data_window.specs.Find.{reason_number, found_window};

use crate::find::Finding;
use crate::refusal::{NO_REASON, Reason};

// What is handed back, in numbers: the base register of the window and the bytes from the bus
// address to its end, which are both 0 where the call is refused; and the number and the reason,
// which are both 0 where it is not.
#[derive(Clone, Copy)]
pub struct FoundWindow {
    pub number: i32,
    pub base: u8,
    pub remaining: u32,
    pub reason: u8,
}

// The number of a reason, where there is one.
pub fn reason_number(reason: Option<Reason>) -> u8
    ensures { result ≡ reason_number reason }
{
    match reason {
        Some(reason) => reason.number(),
        None => NO_REASON,
    }
}

pub fn found_window(finding: Finding) -> FoundWindow
    ensures { result ≡ found_window finding }
{
    match finding {
        Ok(found) => FoundWindow {
            number: 0,
            base: found.base,
            remaining: found.remaining,
            reason: NO_REASON,
        },
        Err(refusal) => FoundWindow {
            number: refusal.refusal().number().0,
            base: 0,
            remaining: 0,
            reason: reason_number(refusal.reason()),
        },
    }
}
