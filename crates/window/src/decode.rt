// A base register decoded: the window that it opens, as a kept number.
ghost use Rattle.std.specs.Prelude.{◌≡◌, cond, [], ◌∷◌, ◌<◌, ◌≤◌};
ghost use Rattle.window.specs.Window.{
  start_of,
  command_bit,
  is_window,
  window_length,
  is_open,
  window_of,
};
ghost use Rattle.window.specs.Kept.{code};

use crate::kept::packed;

// Whether the command byte opens the windows of a space: bit 0 for I/O, bit 1 for memory.
fn command_bit(io: bool, command: u8) -> bool
    ensures { result ≡ command_bit (cond io 1 0) command }
{
    if io {
        command % 2 == 1
    } else {
        command / 2 % 2 == 1
    }
}

// A base register's value with its bits below k cleared.
fn start(k: u8, x: u32) -> u32
    requires { k < 32 }
    ensures { result ≡ start_of k x }
{
    x - x % (1u32 << k)
}

// Whether a length exponent is a window's; an altered record may hold any byte.
pub fn is_window(k: u8) -> bool
    ensures { result ≡ is_window k }
{
    (2..=16).contains(&k)
}

// The length of the window of length exponent k; 0 where it is none.
pub fn window_length(k: u8) -> u32
    ensures { (result ≡ window_length k) × (result ≤ 65536) }
{
    if !is_window(k) {
        return 0;
    }
    1u32 << k
}

// The kept number of the window of a base register with value x, if it is open.
pub fn window_number(k: u8, x: u32, command: u8, handle: u32, base: u8) -> Option<u64>
    ensures { result ≡ code (cond (is_open k x command) (window_of k x handle base ∷ []) []) }
{
    if !is_window(k) {
        return None;
    }
    let io = x % 2 == 1;
    if !command_bit(io, command) {
        return None;
    }
    let start = start(k, x);
    if start == 0 {
        return None;
    }
    Some(packed(io, start, window_length(k), handle, base))
}
