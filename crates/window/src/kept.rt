// A kept number: one window in 59 bits, from the top
//   space (1), start (32), handle (5), base register (3), length (17), contested (1)
// so that the order of the numbers is the order of the window list. The length stands there, and
// not its exponent: an end then needs no power.
ghost use Rattle.std.specs.Prelude.{◌≡◌, cond, eqb, ◌+◌, ◌*◌, ◌^◌, ◌<◌, ◌≤◌};
ghost use Rattle.window.specs.Kept.{unpack, is_end, begins, ends};

// How many values each field has, from the lowest: contested, length, base register, handle, start.
const MARKS: u64 = 2;

const LENGTHS: u64 = 131072;

const BASES: u64 = 8;

const HANDLES: u64 = 32;

const STARTS: u64 = 4294967296;

// What one unit of each field is worth.
const BASE: u64 = MARKS * LENGTHS;

const HANDLE: u64 = BASE * BASES;

const START: u64 = HANDLE * HANDLES;

const SPACE: u64 = START * STARTS;

// An unmarked window.
pub(crate) fn packed(io: bool, start: u32, length: u32, handle: u32, base: u8) -> u64
    requires { length ≤ 65536 }
    ensures { result
        ≡ ((((cond io 1 0 * 2 ^ 32 + start) * 2 ^ 5 + handle) * 2 ^ 3 + base) * 2 ^ 17 + length)
        * 2 }
{
    let place = (u64::from(io) * STARTS + u64::from(start)) * HANDLES + u64::from(handle);
    ((place * BASES + u64::from(base)) * LENGTHS + u64::from(length)) * MARKS
}

// Whether the window is of the I/O space.
pub fn is_io(w: u64) -> bool
    ensures { result ≡ eqb (unpack w).space 1 }
{
    w / SPACE % 2 == 1
}

pub fn start_of(w: u64) -> u32
    ensures { result ≡ (unpack w).start }
{
    (w / START % STARTS) as u32
}

// The length; 0 where the number is no window.
pub fn length_of(w: u64) -> u32
    ensures { result ≡ (unpack w).length }
{
    (w / MARKS % LENGTHS) as u32
}

// Whether a number ends the kept list: it is no window, so its length is 0.
pub fn is_end(w: u64) -> bool
    ensures { result ≡ is_end w }
{
    length_of(w) == 0
}

pub fn handle_of(w: u64) -> u32
    ensures { result ≡ (unpack w).handle }
{
    (w / HANDLE % HANDLES) as u32
}

pub fn base_of(w: u64) -> u32
    ensures { result ≡ (unpack w).base }
{
    (w / BASE % BASES) as u32
}

pub fn is_contested(w: u64) -> bool
    ensures { result ≡ (unpack w).contested }
{
    w % MARKS == 1
}

// Where the window begins and ends, with the I/O addresses after the memory addresses: one
// comparison then serves both spaces.
pub fn beginning(w: u64) -> u64
    ensures { result ≡ begins w }
{
    w / START
}

pub fn ending(w: u64) -> u64
    ensures { result ≡ ends w }
{
    w / START + w / MARKS % LENGTHS
}
