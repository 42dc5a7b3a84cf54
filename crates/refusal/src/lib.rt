// Why a call was turned down. A refused call changes nothing.
#![tactic(auto)]

ghost use Rattle.std.specs.Prelude.{◌≡◌, Some};
ghost use Rattle.refusal.specs.Numbers.{number as refusal_number, text as refusal_text};

use std::error::Error;
use std::fmt;

// Each with its number.
#[derive(Clone, Copy, PartialEq, Eq, Hash, Debug)]
pub enum Refusal {
    // a core whose length is not one of the four sizes, or not that of the core that was opened; any call where the opening was refused; an image
    // that does not fit the core
    Length = 1,
    // a level outside 0 to 23, or a bit outside 0 to 15
    Wiring = 2,
    // a device's area outside 1 to 31
    Area = 3,
    // a device's gap outside 1 to 255
    Gap = 4,
    // a call of the console that wants a stopped controller
    NotStopped = 5,
    // a word loaded where a protected word stands
    Protected = 6,
    // a step when so many cycles were told that no more are counted
    CycleLimit = 7,
    // an image record whose first byte is above 3
    ImageByte = 8,
}

impl Refusal {
    pub fn number(self) -> u32
        ensures { result ≡ refusal_number self }
    {
        self as u32
    }
}

impl fmt::Display for Refusal {
    ghost output = { λ r. Some (refusal_text r) };

    fn fmt<W: fmt::Write>(&self, f: &mut fmt::Formatter<W>) -> fmt::Result {
        let number = self.number();
        write!(f, "refused {number}")
    }
}

impl Error for Refusal {}
