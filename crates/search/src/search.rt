// The two searches, by device and by class: one walk over the functions, which passes over as many
// matches as the index says. What the caller names in an edition is turned into the later text's ID
// or class first.
ghost use Rattle.std.specs.Prelude.{◌≡◌, ℕ, Bool};
ghost use Rattle.board.specs.Handles.{function_count};
ghost use Rattle.board.specs.Layout.{register_byte};
ghost use Rattle.search.specs.Search.{
  device_matches,
  class_matches,
  matching,
  searched,
  sought_devices,
  sought_classes,
  Finds,
};

use board::handle::function_count;
use board::layout::{Header, Registers, register_byte, register_number};
use board::status::CallRefusal;
use call_edition::edition::{InEdition, class_of, id_of, is_bad_vendor, is_known};
use numbers::number::Width;

// Registers that searches look at.
const VENDOR: u8 = 0x00;

const DEVICE: u8 = 0x02;

const INTERFACE: u8 = 0x09;

const SUB_CLASS: u8 = 0x0A;

const BASE_CLASS: u8 = 0x0B;

// The vendor that matches all.
const ANY_VENDOR: u32 = 0xFFFF;

// The bits of a class that ignore one of its bytes.
const IGNORE_BASE: u32 = 0x4000000;

const IGNORE_SUB: u32 = 0x2000000;

const IGNORE_INTERFACE: u32 = 0x1000000;

// Whether a function has a vendor and device.
fn device_matches(registers: &Registers, function: u32, id: u32) -> bool
    ensures { result ≡ device_matches id (register_byte registers.now function) }
{
    let vendor = register_number(registers, function, VENDOR, Width::Word);
    let device = register_number(registers, function, DEVICE, Width::Word);
    (id % 0x10000 == ANY_VENDOR) | ((vendor == id % 0x10000) & (device == id / 0x10000))
}

// Whether a function has a class, but for the bytes that are ignored.
fn class_matches(registers: &Registers, function: u32, class: u32) -> bool
    ensures { result ≡ class_matches class (register_byte registers.now function) }
{
    let base = register_byte(registers, function, BASE_CLASS) as u32;
    let sub = register_byte(registers, function, SUB_CLASS) as u32;
    let interface = register_byte(registers, function, INTERFACE) as u32;
    ((class / IGNORE_BASE % 2 == 1) | (base == class / 0x10000 % 256))
        & ((class / IGNORE_SUB % 2 == 1) | (sub == class / 0x100 % 256))
        & ((class / IGNORE_INTERFACE % 2 == 1) | (interface == class % 256))
}

// The handle of the function that passes a test with so many before it that do.
fn find<F: Fn(u32) -> bool>(count: u32, is_match: F, index: u32) -> Result<u32, CallRefusal>
    requires { F.IsAlwaysCallable is_match }
    ensures { (m : ℕ → Bool) → ((i : ℕ) (b : Bool) → F.post is_match i b → b ≡ m i)
        → result ≡ searched (matching m 0 count) index }
{
    let mut before = index;
    // Invariant: the search from place i on, past `before` matches, answers as the whole search.
    for i in 0..count {
        if is_match(i) {
            if before == 0 {
                return Ok(i + 1);
            }
            before -= 1;
        }
    }
    Err(CallRefusal::DeviceNotFound)
}

// The match with so many matches before it in table order: device ID in bits 31 to 16, vendor in
// bits 15 to 0; in draft 1.9 the other way round, and there vendor FFFFh is refused.
#[tactic(auto, unfolding(crate::specs::Search::sought_at, crate::specs::Search::sought_number))]
pub fn find_pci_device(
    header: &Header,
    registers: &Registers,
    id: InEdition,
    index: u32,
) -> Result<u32, CallRefusal>
    ensures { Finds
        (sought_devices id
        (function_count header.now) (register_byte registers.now))
        index result }
{
    if !is_known(id) {
        return Err(CallRefusal::FuncNotSupported);
    }
    if is_bad_vendor(id) {
        return Err(CallRefusal::BadVendorId);
    }
    let later = id_of(id);
    find(
        function_count(header),
        |i| device_matches(registers, i, later),
        index,
    )
}

// The same by class: base, sub and programming interface in bits 23 to 0; bits 26, 25 and 24 set
// mean ignore one each, in that order; in draft 1.9 they play no part.
#[tactic(auto, unfolding(crate::specs::Search::sought_at, crate::specs::Search::sought_number))]
pub fn find_pci_classcode(
    header: &Header,
    registers: &Registers,
    class: InEdition,
    index: u32,
) -> Result<u32, CallRefusal>
    ensures { Finds
        (sought_classes class
        (function_count header.now) (register_byte registers.now))
        index result }
{
    if !is_known(class) {
        return Err(CallRefusal::FuncNotSupported);
    }
    let later = class_of(class);
    find(
        function_count(header),
        |i| class_matches(registers, i, later),
        index,
    )
}
