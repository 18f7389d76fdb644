// The numbers that calls hand back: 0, or the number of a refusal.
ghost use Rattle.std.specs.Prelude.{◌≡◌};
ghost use Rattle.board.specs.Statuses.{refusal_number, number_of};

// A number that is handed back, by the text's own names: document 01's "Numbers handed back".
#[derive(Clone, Copy, Debug, PartialEq, Eq)]
pub struct Number(pub i32);

impl Number {
    // The call is accepted.
    pub const SUCCESSFUL: Number = Number(0);

    pub const FUNC_NOT_SUPPORTED: Number = Number(-2);

    pub const BAD_VENDOR_ID: Number = Number(-3);

    pub const DEVICE_NOT_FOUND: Number = Number(-4);

    pub const BAD_REGISTER_NUMBER: Number = Number(-5);

    pub const SET_FAILED: Number = Number(-6);

    pub const BUFFER_TOO_SMALL: Number = Number(-7);

    pub const GENERAL_ERROR: Number = Number(-8);

    pub const BAD_HANDLE: Number = Number(-9);
}

// Why a call is refused.
#[derive(Clone, Copy, Debug, PartialEq, Eq)]
pub enum CallRefusal {
    // Special cycle, get routing, set interrupt: always. Data: width not offered. Searches and
    // data: an edition of the call that is none.
    FuncNotSupported,
    // Device search of draft 1.9: vendor FFFFh.
    BadVendorId,
    // Searches, chain listing and window listing: past the end.
    DeviceNotFound,
    // Configuration: word not even, longword not a multiple of 4.
    BadRegisterNumber,
    // Hook: already hooked.
    SetFailed,
    // Data, reset, resource: lent buffer too short.
    BufferTooSmall,
    // Data, resource, hook, unhook, chain listing, set used: what "Order of checks" lists.
    GeneralError,
    // Any call with a handle, save those that always give FUNC_NOT_SUPPORTED.
    BadHandle,
}

impl CallRefusal {
    // The number that stands for it.
    pub fn number(self) -> Number
        ensures { result.0 ≡ refusal_number self }
    {
        match self {
            CallRefusal::FuncNotSupported => Number::FUNC_NOT_SUPPORTED,
            CallRefusal::BadVendorId => Number::BAD_VENDOR_ID,
            CallRefusal::DeviceNotFound => Number::DEVICE_NOT_FOUND,
            CallRefusal::BadRegisterNumber => Number::BAD_REGISTER_NUMBER,
            CallRefusal::SetFailed => Number::SET_FAILED,
            CallRefusal::BufferTooSmall => Number::BUFFER_TOO_SMALL,
            CallRefusal::GeneralError => Number::GENERAL_ERROR,
            CallRefusal::BadHandle => Number::BAD_HANDLE,
        }
    }
}

// What a call hands back that has no more to say than whether it is accepted.
pub type Status = Result<(), CallRefusal>;

// The number of an answer.
pub fn number_of<T: Copy>(given: Result<T, CallRefusal>) -> Number
    ensures { result.0 ≡ number_of given }
{
    match given {
        Ok(_) => Number::SUCCESSFUL,
        Err(refusal) => refusal.number(),
    }
}
