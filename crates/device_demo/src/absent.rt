// A device that refuses everything: what a make has to write, and no more.
ghost use Rattle.std.specs.Prelude.{[], refl};
ghost use Rattle.device_demo.specs.Absent.{absent, absent_lawful};

use device::answer::{Asking, DeviceFault};
use device::control::ControlWord;
use device::interface::{ChannelDevice, Device, Kind};
use device::table::TableEnd;

// It has a name that is lent to it: a make may borrow.
#[derive(Clone, Copy, PartialEq, Eq, Debug, Default)]
pub struct Absent<'a> {
    pub name: &'a str,
}

impl Device for Absent<'_> {
    type Of = Kind<9>;

    ghost kinded = { refl };

    ghost control = { λ _. [] };

    ghost words = { λ _. [] };

    ghost means = { absent };

    ghost lawful = { absent_lawful };

    ghost numbered = { λ _. refl };

    fn answers_to(&self, _area: u32) -> bool {
        false
    }

    fn takes_function(&self, _area: u32, _function: u32) -> bool {
        false
    }

    fn operating(&self) -> bool {
        false
    }

    fn line(&self) -> bool {
        false
    }

    fn command(&mut self, _order: ControlWord) -> Result<(), DeviceFault> {
        Err(DeviceFault::NotTaken)
    }

    fn sense(&mut self, _area: u32, _modifier: u32) -> u16 {
        0
    }

    fn put(&mut self, _area: u32, _word: u16) {}

    fn get(&mut self, _area: u32) -> u16 {
        0
    }

    fn passed(&mut self) {}

    fn reset(&mut self) {}
}

impl ChannelDevice for Absent<'_> {
    fn asks(&self) -> Asking {
        Asking::Nothing
    }

    fn bring(&mut self) -> u16 {
        0
    }

    fn take(&mut self, _word: u16) {}

    fn finish(&mut self, _end: TableEnd) {}
}
