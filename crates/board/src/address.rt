// PCI bus addresses and physical CPU addresses, each a number with its own type, and the only two
// ways between them. Both wrap modulo 2^32, so that they undo each other (proofs/Addresses.antt).
// The number is kept private, so that no other crate takes an address of one kind for the other by
// writing its constructor.
ghost use Rattle.std.specs.Prelude.{◌≡◌, ◌+◌, ◌-◌, ◌%◌, ◌^◌};
ghost use Rattle.board.specs.Addresses.{
  bus,
  cpu,
  bus_number,
  cpu_number,
  cpu_address,
  bus_address,
};

// An address on the PCI bus: what data calls and base registers speak of.
#[derive(Clone, Copy)]
pub struct BusAddress(u32);

// The address at which the CPU sees a bus address.
#[derive(Clone, Copy)]
pub struct CpuAddress(u32);

impl BusAddress {
    // The address of a number.
    pub fn of(number: u32) -> BusAddress
        ensures { result ≡ bus number }
    {
        BusAddress(number)
    }

    // The number alone.
    pub fn number(self) -> u32
        ensures { result ≡ bus_number self }
    {
        self.0
    }

    // The offset added, modulo 2^32.
    pub fn to_cpu(self, offset: u32) -> CpuAddress
        ensures { result ≡ cpu_address offset self }
    {
        CpuAddress(self.0.wrapping_add(offset))
    }
}

impl CpuAddress {
    // The address of a number.
    pub fn of(number: u32) -> CpuAddress
        ensures { result ≡ cpu number }
    {
        CpuAddress(number)
    }

    // The number alone.
    pub fn number(self) -> u32
        ensures { result ≡ cpu_number self }
    {
        self.0
    }

    // The offset taken off, modulo 2^32.
    pub fn to_bus(self, offset: u32) -> BusAddress
        ensures { result ≡ bus_address offset self }
    {
        BusAddress(self.0.wrapping_sub(offset))
    }
}
