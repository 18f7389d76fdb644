// The two address spaces.
ghost use Rattle.std.specs.Prelude.{◌≡◌};
ghost use Rattle.board.specs.Spaces.{space_number};

#[derive(Clone, Copy)]
pub enum Space {
    // Number 0.
    Memory,
    // Number 1.
    Io,
}

impl Space {
    // The number that stands for it.
    pub fn number(self) -> u8
        ensures { result ≡ space_number self }
    {
        match self {
            Space::Memory => 0,
            Space::Io => 1,
        }
    }
}
