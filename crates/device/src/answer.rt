// What a device may answer.
ghost use Rattle.std.specs.Prelude.{Some};
ghost use Rattle.device.specs.Texts.{fault_text};

use std::error::Error;
use std::fmt;

// Why a device turned a command down.
#[derive(Clone, Copy, PartialEq, Eq, Debug)]
pub enum DeviceFault {
    // the area has no such function
    NotTaken,
    // it is at work, and this is another function than Control
    Busy,
}

impl fmt::Display for DeviceFault {
    ghost output = { λ fault. Some (fault_text fault) };

    fn fmt<W: fmt::Write>(&self, f: &mut fmt::Formatter<W>) -> fmt::Result {
        match self {
            DeviceFault::NotTaken => write!(f, "not taken"),
            DeviceFault::Busy => write!(f, "busy"),
        }
    }
}

impl Error for DeviceFault {}

// What a channel device wants of its channel. Bring and take are opposites, and each has a name of its own.
#[derive(Clone, Copy, PartialEq, Eq, Debug)]
pub enum Asking {
    Nothing,
    Bring,
    Take,
}
