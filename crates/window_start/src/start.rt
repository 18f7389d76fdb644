// The start that a descriptor shows of a base register's window.
ghost use Rattle.std.specs.Prelude.{◌≡◌};
ghost use Rattle.window.specs.Kept.{unpack, unpacked};
ghost use Rattle.window_start.specs.Start.{is_of, shown_start, start_in};

use window::kept::{base_of, handle_of, is_contested, is_end, start_of};

// Whether a kept number is the window of a base register of a handle.
fn is_of(w: u64, handle: u32, base: u8) -> bool
    ensures { result ≡ is_of handle base (unpack w) }
{
    (handle_of(w) == handle) & (base_of(w) == u32::from(base))
}

// A window's start; 0 where it is contested.
fn shown_start(w: u64) -> u32
    ensures { result ≡ shown_start (unpack w) }
{
    if is_contested(w) { 0 } else { start_of(w) }
}

// The start of a base register's window in the kept list; 0 where it is closed or contested.
pub fn start_in(list: &[u64], handle: u32, base: u8) -> u32
    ensures { result ≡ start_in (unpacked list.now) handle base }
{
    // Invariant: the search from here on answers as the search of the whole list does.
    for &w in list {
        if is_end(w) {
            return 0;
        }
        if is_of(w, handle, base) {
            return shown_start(w);
        }
    }
    0
}
