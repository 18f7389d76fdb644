// An ID, a class or an address in the call edition that its caller names: 1 is draft 1.9, 2 the
// later text. It is turned into what the later text has, once, and all that follows knows only
// that. An image's edition is another thing.
ghost use Rattle.std.specs.Prelude.{◌≡◌, ◌-◌};
ghost use Rattle.board.specs.Layout.{offset};
ghost use Rattle.call_edition.specs.Edition.{
  in_edition,
  is_known,
  is_bad_vendor,
  id_of,
  class_of,
  named_bus,
};

use board::address::{BusAddress, CpuAddress};
use board::handle::place;
use board::layout::{Records, offset};

// A number as its caller names it, with the call's edition.
#[derive(Clone, Copy)]
pub struct InEdition {
    pub number: u32,
    pub edition: u32,
}

// The editions that are known.
const DRAFT_1_9: u32 = 1;

const LATER_TEXT: u32 = 2;

// The vendor that no device has.
const NO_VENDOR: u32 = 0xFFFF;

pub fn in_edition(number: u32, edition: u32) -> InEdition
    ensures { result ≡ in_edition number edition }
{
    InEdition {
        number: number,
        edition: edition,
    }
}

// Whether the edition is one of the two; nothing is cut off, 102h is not 2.
pub fn is_known(named: InEdition) -> bool
    ensures { result ≡ is_known named }
{
    (named.edition == DRAFT_1_9) | (named.edition == LATER_TEXT)
}

// Whether a device search names a vendor that draft 1.9 does not let it name: there the vendor
// stands in bits 31 to 16.
pub fn is_bad_vendor(id: InEdition) -> bool
    ensures { result ≡ is_bad_vendor id }
{
    (id.edition == DRAFT_1_9) & (id.number / 0x10000 == NO_VENDOR)
}

// The searched ID as the later text has it, device in bits 31 to 16 and vendor in bits 15 to 0;
// draft 1.9 has the vendor in bits 31 to 16.
pub fn id_of(id: InEdition) -> u32
    ensures { result ≡ id_of id }
{
    if id.edition != DRAFT_1_9 {
        return id.number;
    }
    let vendor = id.number / 0x10000;
    let device = id.number % 0x10000;
    device * 0x10000 + vendor
}

// The searched class as the later text has it; in draft 1.9 bits 31 to 24 play no part.
pub fn class_of(class: InEdition) -> u32
    ensures { result ≡ class_of class }
{
    if class.edition != DRAFT_1_9 {
        return class.number;
    }
    class.number % 0x1000000
}

// The bus address that a caller names to a handle, none in an edition that is not known: in draft
// 1.9 by the CPU address, which is above it by the function's offset. The later text is tested
// first, so that its data calls take no longer for the other's sake.
#[tactic(auto, unfolding(crate::specs::Edition::named_bus))]
pub fn bus_of(records: &Records, handle: u32, address: InEdition) -> Option<BusAddress>
    ensures { result ≡ named_bus (offset records.now (handle - 1)) address }
{
    if address.edition == LATER_TEXT {
        return Some(BusAddress::of(address.number));
    }
    if address.edition != DRAFT_1_9 {
        return None;
    }
    let cpu = CpuAddress::of(address.number);
    Some(cpu.to_bus(offset(records, place(handle))))
}
