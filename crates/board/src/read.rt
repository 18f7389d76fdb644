// What reads hand back, of registers and of cells.
ghost use Rattle.std.specs.Prelude.{◌≡◌};
ghost use Rattle.numbers.specs.Numbers.{bytes};
ghost use Rattle.board.specs.Reads.{value_of, refused_fast, fast_of};

use crate::status::CallRefusal;
use numbers::number::Width;

// What a read gives: the number that stands there, or why it is refused.
pub type Read = Result<u32, CallRefusal>;

// What a fast read hands back; the value of a refused one is all ones of its width.
#[derive(Clone, Copy)]
pub struct FastRead {
    pub value: u32,
    pub fault: bool,
}

// The value that a read hands back; that of a refused one is 0.
pub fn value_of(read: Read) -> u32
    ensures { result ≡ value_of read }
{
    read.unwrap_or(0)
}

// The largest number of a width, with the fault flag.
pub fn refused_fast(width: Width) -> FastRead
    ensures { result ≡ refused_fast (bytes width) }
{
    match width {
        Width::Byte => FastRead {
            value: 0xFF,
            fault: true,
        },
        Width::Word => FastRead {
            value: 0xFFFF,
            fault: true,
        },
        Width::Long => FastRead {
            value: 0xFFFFFFFF,
            fault: true,
        },
    }
}

// What a fast read of a width hands back of a read.
pub fn fast_of(width: Width, read: Read) -> FastRead
    ensures { result ≡ fast_of (bytes width) read }
{
    match read {
        Ok(value) => FastRead {
            value: value,
            fault: false,
        },
        Err(_) => refused_fast(width),
    }
}
