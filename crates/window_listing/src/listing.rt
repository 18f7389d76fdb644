// The listing: the windows of the kept list, one by one. All of them are counted first: a loop that
// stops at the window asked for takes more time in all (docs/DECISIONS.md).
ghost use Rattle.std.specs.Prelude.{◌≡◌, length};
ghost use Rattle.window.specs.Kept.{unpack, unpacked};
ghost use Rattle.window_listing.specs.Listing.{in_space, found_window, Lists};

use board::address::BusAddress;
use board::layout::Windows;
use board::status::CallRefusal;
use window::kept::{base_of, handle_of, is_contested, is_end, is_io, length_of, start_of};

// A window in its space, with its start and length.
#[derive(Clone, Copy)]
pub enum ListedWindow {
    // Space 0.
    Memory { start: BusAddress, length: u32 },
    // Space 1.
    Io { start: BusAddress, length: u32 },
}

// What the listing says of a window.
#[derive(Clone, Copy)]
pub struct Listed {
    pub window: ListedWindow,
    pub handle: u32,
    // Which base register opens it, from 0.
    pub base: u32,
    // Whether another window of its space shares an address with it.
    pub contested: bool,
}

// How many windows a kept list has: those before the first number that is no window.
fn kept_count(list: &[u64]) -> usize
    ensures { result ≡ length (unpacked list.now) }
{
    list.iter().position(|w| is_end(*w)).unwrap_or(list.len())
}

// A window of the I/O or of the memory space.
fn in_space(io: bool, start: BusAddress, length: u32) -> ListedWindow
    ensures { result ≡ in_space io start length }
{
    if io {
        return ListedWindow::Io {
            start: start,
            length: length,
        };
    }
    ListedWindow::Memory {
        start: start,
        length: length,
    }
}

// The window that a kept number says.
fn read_window(w: u64) -> Listed
    ensures { result ≡ found_window (unpack w) }
{
    Listed {
        window: in_space(is_io(w), BusAddress::of(start_of(w)), length_of(w)),
        handle: handle_of(w),
        base: base_of(w),
        contested: is_contested(w),
    }
}

// The window at index n of the kept list, from 0; past the end DEVICE_NOT_FOUND.
pub fn list_window(windows: &Windows, n: u32) -> Result<Listed, CallRefusal>
    ensures { Lists (unpacked windows.now) n result }
{
    let n = n as usize;
    if kept_count(windows) <= n {
        return Err(CallRefusal::DeviceNotFound);
    }
    Ok(read_window(windows[n]))
}
