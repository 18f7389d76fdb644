// Why a data access is refused; the refusal that is handed back for it, document 01, "Numbers
// handed back", Data; and the reason that is handed on beside it, request E3. Several checks are
// refused alike, and the variants keep them apart.
ghost use Rattle.std.specs.Prelude.{◌≡◌};
ghost use Rattle.data_window.specs.Find.{refusal_of, reason_of, number_of_reason};

use board::status::CallRefusal;

// The check of a data access that failed, in the order of the checks. A cell past the buffer, which
// only an altered board has, is found last, when the cells are worked out.
#[derive(Clone, Copy, Debug, PartialEq, Eq)]
pub enum DataRefusal {
    // -2: the call's edition is none.
    UnknownEdition,
    // -9: no function has the handle.
    BadHandle,
    // -7: fewer cells are lent than the board's total.
    ShortCells,
    // -8: the address is not a multiple of the width.
    NotAligned,
    // -8: no open window of the function in that space holds the address.
    Nothing,
    // -8: the window is contested.
    Contested,
    // -2: the window does not offer the width.
    WidthMissing,
    // -7: a cell is past the buffer.
    PastBuffer,
}

// No reason: of an accepted access, and of the refusals that have none.
pub const NO_REASON: u8 = 0;

// What tells apart the refusals of -8 and the width that is missing.
#[derive(Clone, Copy, Debug, PartialEq, Eq)]
pub enum Reason {
    NotAligned,
    Nothing,
    Contested,
    WidthMissing,
}

impl DataRefusal {
    // The refusal that is handed back.
    pub fn refusal(self) -> CallRefusal
        ensures { result ≡ refusal_of self }
    {
        match self {
            DataRefusal::UnknownEdition => CallRefusal::FuncNotSupported,
            DataRefusal::BadHandle => CallRefusal::BadHandle,
            DataRefusal::ShortCells => CallRefusal::BufferTooSmall,
            DataRefusal::NotAligned => CallRefusal::GeneralError,
            DataRefusal::Nothing => CallRefusal::GeneralError,
            DataRefusal::Contested => CallRefusal::GeneralError,
            DataRefusal::WidthMissing => CallRefusal::FuncNotSupported,
            DataRefusal::PastBuffer => CallRefusal::BufferTooSmall,
        }
    }

    // The reason that is handed on beside the number or the fault flag, where there is one.
    pub fn reason(self) -> Option<Reason>
        ensures { result ≡ reason_of self }
    {
        match self {
            DataRefusal::UnknownEdition => None,
            DataRefusal::BadHandle => None,
            DataRefusal::ShortCells => None,
            DataRefusal::NotAligned => Some(Reason::NotAligned),
            DataRefusal::Nothing => Some(Reason::Nothing),
            DataRefusal::Contested => Some(Reason::Contested),
            DataRefusal::WidthMissing => Some(Reason::WidthMissing),
            DataRefusal::PastBuffer => None,
        }
    }
}

impl From<DataRefusal> for CallRefusal {
    ghost from_gives = { λ r s. s ≡ refusal_of r };

    fn from(refusal: DataRefusal) -> CallRefusal {
        refusal.refusal()
    }
}

impl Reason {
    // The number that stands for it; 0 stands for none.
    pub fn number(self) -> u8
        ensures { result ≡ number_of_reason self }
    {
        match self {
            Reason::NotAligned => 1,
            Reason::Nothing => 2,
            Reason::Contested => 3,
            Reason::WidthMissing => 4,
        }
    }
}
