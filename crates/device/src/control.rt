// What a command is given.
ghost use Rattle.std.specs.Prelude.{◌≡◌};
ghost use Rattle.device.specs.Orders.{control_of};

// The area that it goes to, the function, and the function's modifier. They are plain numbers, and any of them may be given.
#[derive(Clone, Copy, PartialEq, Eq, Debug)]
pub struct ControlWord {
    pub area: u32,
    pub function: u32,
    pub modifier: u32,
}

// The parts of a storage word's data.
impl From<u16> for ControlWord {
    ghost from_gives = { λ word r. r ≡ control_of word };

    fn from(word: u16) -> ControlWord {
        ControlWord {
            area: u32::from(word / 2_048),
            function: u32::from(word / 256 % 8),
            modifier: u32::from(word % 256),
        }
    }
}
