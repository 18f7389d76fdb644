// The window for what a caller names in a call edition: the edition is tested before all else, and
// from then on the address is one of the bus.
ghost use Rattle.std.specs.Prelude.{◌≡◌};
ghost use Rattle.board.specs.Spaces.{space_number};
ghost use Rattle.numbers.specs.Numbers.{bytes};
ghost use Rattle.data_window.specs.Find.{find_named};

use crate::find::{DataAddress, Finding, data_address, find_window};
use crate::map::DataMap;
use crate::refusal::DataRefusal;
use call_edition::edition::{InEdition, bus_of};

// What the caller of a data call names: the address is in the call's edition.
pub type NamedAddress = DataAddress<InEdition>;

// The window of a handle for what its caller names, with so many cells lent.
#[tactic(auto, unfolding(call_edition::specs::Edition::named_bus))]
pub fn find_named(map: DataMap<'_>, room: usize, at: NamedAddress) -> Finding
    ensures { result ≡ find_named (bytes at.width)
        map.entry.header.now map.entry.records.now map.entry.windows.now map.entry.offsets.now
        room (space_number at.space) at.handle at.address }
{
    let bus = bus_of(map.records, at.handle, at.address).ok_or(DataRefusal::UnknownEdition)?;
    let on_bus = data_address(at.space, at.width, at.handle, bus);
    find_window(
        map.header,
        map.records,
        map.windows,
        map.offsets,
        room,
        on_bus,
    )
}
