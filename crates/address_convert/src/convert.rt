// The conversions between bus addresses and CPU addresses, by handle. The two kinds are types of
// their own, so that an address of one kind is not taken for one of the other.
ghost use Rattle.std.specs.Prelude.{◌≡◌};
ghost use Rattle.address_convert.specs.Convert.{offset_of, bus_to_cpu, cpu_to_bus};

use board::address::{BusAddress, CpuAddress};
use board::handle::{is_handle, place};
use board::layout::{Header, Records, offset};
use board::status::CallRefusal;

// The offset of a handle's function.
fn offset_of(header: &Header, records: &Records, handle: u32) -> Result<u32, CallRefusal>
    ensures { result ≡ offset_of header.now records.now handle }
{
    if !is_handle(header, handle) {
        return Err(CallRefusal::BadHandle);
    }
    Ok(offset(records, place(handle)))
}

// Where the CPU sees a bus address of a function.
pub fn bus_to_cpu(
    header: &Header,
    records: &Records,
    handle: u32,
    address: BusAddress,
) -> Result<CpuAddress, CallRefusal>
    ensures { result ≡ bus_to_cpu header.now records.now handle address }
{
    let added = offset_of(header, records, handle)?;
    Ok(address.to_cpu(added))
}

// The bus address that the CPU sees at an address.
pub fn cpu_to_bus(
    header: &Header,
    records: &Records,
    handle: u32,
    address: CpuAddress,
) -> Result<BusAddress, CallRefusal>
    ensures { result ≡ cpu_to_bus header.now records.now handle address }
{
    let taken_off = offset_of(header, records, handle)?;
    Ok(address.to_bus(taken_off))
}
