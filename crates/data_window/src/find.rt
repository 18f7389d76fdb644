// The step that finds the window for a handle: one pass over the kept list, after the checks that
// need no window. Where two windows of a function hold an address both are contested, so that the
// first decides.
ghost use Rattle.std.specs.Prelude.{◌≡◌, ◌-◌, ◌<◌, ◌≤◌, ◌==◌};
ghost use Rattle.board.specs.Layout.{widths};
ghost use Rattle.board.specs.Spaces.{space_number};
ghost use Rattle.numbers.specs.Numbers.{bytes};
ghost use Rattle.window.specs.Kept.{unpack, unpacked};
ghost use Rattle.window.specs.Window.{end};
ghost use Rattle.data_window.specs.Find.{
  data_address,
  holds,
  offers,
  checked_window,
  in_list,
  find_in,
};

use crate::refusal::DataRefusal;
use board::address::BusAddress;
use board::handle::{is_handle, place_of_handle};
use board::layout::{BASES, CellOffsets, Header, Records, WINDOWS, Windows, widths};
use board::space::Space;
use numbers::number::{Width, bytes_by_shift, is_multiple_by_shift, item_or};
use window::kept::{base_of, handle_of, is_contested, is_end, is_io, length_of, start_of};

// What a data access names: the space, the bytes that it moves, whose window, and where, on the bus
// or as its caller names that.
#[derive(Clone, Copy)]
pub struct DataAddress<A> {
    pub space: Space,
    pub width: Width,
    pub handle: u32,
    pub address: A,
}

pub fn data_address<A: Copy>(space: Space, width: Width, handle: u32, address: A) -> DataAddress<A>
    ensures { result ≡ data_address space width handle address }
{
    DataAddress {
        space: space,
        width: width,
        handle: handle,
        address: address,
    }
}

// The window that an access is for: its base register, the distance from its start and the bytes
// that remain to its end.
#[derive(Clone, Copy)]
pub struct Found {
    pub base: u8,
    pub distance: u32,
    pub remaining: u32,
}

// The window, or the check that failed.
pub type Finding = Result<Found, DataRefusal>;

fn is_in(w: u64, space: Space) -> bool
    ensures { result ≡ ((unpack w).space == space_number space) }
{
    match space {
        Space::Memory => !is_io(w),
        Space::Io => is_io(w),
    }
}

// Whether a kept number is a window of the function's own, in that space, that holds the address:
// its distance from the start is less than the length. The handle is compared first, as it tells
// most windows apart; the other tests stand as they were timed fastest.
fn holds(w: u64, space: Space, handle: u32, address: u32) -> bool
    ensures { result ≡ holds (space_number space) handle address (unpack w) }
{
    let start = start_of(w);
    let distance = address.wrapping_sub(start);
    (handle_of(w) == handle)
        & ((base_of(w) < BASES as u32)
            & (is_in(w, space) & ((start <= address) & (distance < length_of(w)))))
}

// Whether widths offer a width.
fn offers(width: Width, widths: u8) -> bool
    ensures { result ≡ offers (bytes width) widths }
{
    u32::from(widths) / bytes_by_shift(width) % 2 == 1
}

// What is found in a window that holds the address.
fn check_window(records: &Records, w: u64, width: Width, function: u32, address: u32) -> Finding
    requires { ((unpack w).start ≤ address) × (address < end (unpack w)) }
    ensures { result ≡ checked_window
        (λ b. offers (bytes width) (widths records.now function b))
        address (unpack w) }
{
    let base = base_of(w) as u8;
    let contested = is_contested(w);
    let offered = offers(width, widths(records, function, base));
    if contested {
        return Err(DataRefusal::Contested);
    }
    if !offered {
        return Err(DataRefusal::WidthMissing);
    }
    let distance = address - start_of(w);
    let remaining = length_of(w) - distance;
    Ok(Found {
        base: base,
        distance: distance,
        remaining: remaining,
    })
}

// What is found in the kept list.
fn in_list(
    records: &Records,
    list: &[u64],
    space: Space,
    width: Width,
    handle: u32,
    address: u32,
) -> Finding
    requires { 0 < handle }
    ensures { result ≡ in_list
        (λ b. offers (bytes width) (widths records.now (handle - 1) b))
        (space_number space) handle address (unpacked list.now) }
{
    // Invariant: the windows from w on give what the whole list gives.
    for &w in list {
        if is_end(w) {
            return Err(DataRefusal::Nothing);
        }
        if holds(w, space, handle, address) {
            return check_window(records, w, width, place_of_handle(handle), address);
        }
    }
    Err(DataRefusal::Nothing)
}

// The window of a handle that holds an address, with so many cells lent. The compiler is told to move
// it into its callers: data calls for C on a board of few windows took a quarter longer with a call.
#[tactic(auto, unfolding(crate::specs::Find::find))]
#[inline(always)]
pub fn find_window(
    header: &Header,
    records: &Records,
    windows: &Windows,
    offsets: &CellOffsets,
    room: usize,
    at: DataAddress<BusAddress>,
) -> Finding
    ensures { result ≡ find_in (bytes at.width)
        header.now records.now windows.now offsets.now
        room (space_number at.space) at.handle at.address.0 }
{
    let space = at.space;
    let width = at.width;
    let address = at.address.number();
    let good = is_handle(header, at.handle);
    let short = room < item_or(offsets, WINDOWS, 0) as usize;
    let aligned = is_multiple_by_shift(address, width);
    if !good {
        return Err(DataRefusal::BadHandle);
    }
    if short {
        return Err(DataRefusal::ShortCells);
    }
    if !aligned {
        return Err(DataRefusal::NotAligned);
    }
    in_list(records, windows, space, width, at.handle, address)
}
