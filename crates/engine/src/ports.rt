// The devices by position, as XIO asks for them. That the processor stays is said in each clause, since the engine's fields are public.
ghost use Rattle.std.specs.Prelude.{◌≡◌, ℕ, List};
ghost use Rattle.device.specs.Calls.{command_answer, sense_answer};
ghost use Rattle.works.specs.Faults.{by_channel, recorded};
ghost use Rattle.engine.specs.Machine.{dev_at, position_number};
ghost use Rattle.engine.specs.Events.{put as the_put, get as the_get, command as the_command, sense as the_sense};
ghost use Rattle.engine.specs.Makes.{make_at, calling};
ghost use Rattle.engine.specs.Plan.{got_word};
ghost use Rattle.engine.specs.Xio.{answering as the_answering};
ghost use Rattle.engine.specs.Code.{view, makes, Does};

use crate::engine::Engine;
use crate::place::Position;
use device::control::ControlWord;
use device::interface::{ChannelDevice, Device};
use works::chain::command;
use works::fault::Fault;

// Calls a method of the device at a position. The four have types of their own, so no function could hand out the one that is meant.
macro_rules! device_at {
    ($engine:ident, $position:ident, $method:ident($($argument:ident),*)) => {
        match $position {
            Position::First => $engine.first.$method($($argument),*),
            Position::Second => $engine.second.$method($($argument),*),
            Position::Third => $engine.third.$method($($argument),*),
            Position::Fourth => $engine.fourth.$method($($argument),*),
        }
    };
}

impl<A: ChannelDevice, B: ChannelDevice, C: ChannelDevice, D: Device> Engine<A, B, C, D> {
    // The first device that answers to an area. The four are of four types, so no list of them can be searched.
    pub(crate) fn answering(&self, area: u32) -> Option<Position>
        ensures { (core : List ℕ) → result ≡ the_answering (makes A.Device B.Device C.Device D.Device) (λ p. (dev_at p (view A.Device B.Device C.Device D.Device self.now core)).control) area }
    {
        if self.first.answers_to(area) {
            Some(Position::First)
        } else if self.second.answers_to(area) {
            Some(Position::Second)
        } else if self.third.answers_to(area) {
            Some(Position::Third)
        } else if self.fourth.answers_to(area) {
            Some(Position::Fourth)
        } else {
            None
        }
    }

    pub(crate) fn operating(&self, position: Position) -> bool
        ensures { (core : List ℕ) → result ≡ (make_at position (makes A.Device B.Device C.Device D.Device)).operating (dev_at position (view A.Device B.Device C.Device D.Device self.now core)).control }
    {
        device_at!(self, position, operating())
    }

    pub(crate) fn kind_of(&self, position: Position) -> u32
        ensures { result ≡ (make_at position (makes A.Device B.Device C.Device D.Device)).kind }
    {
        device_at!(self, position, kind())
    }

    // Hands a device a word.
    pub(crate) fn put(&mut self, position: Position, area: u32, word: u16)
        ensures after { (core : List ℕ) → Does A.Device B.Device C.Device D.Device (λ m. calling m position (the_put area word)) self.old core self.new core }
        ensures processor { self.new.processor ≡ self.old.processor }
    {
        device_at!(self, position, put(area, word))
    }

    // Gets a word from a device.
    pub(crate) fn get(&mut self, position: Position, area: u32) -> u16
        ensures word { (core : List ℕ) → result ≡ got_word (makes A.Device B.Device C.Device D.Device) position area (view A.Device B.Device C.Device D.Device self.old core) }
        ensures after { (core : List ℕ) → Does A.Device B.Device C.Device D.Device (λ m. calling m position (the_get area)) self.old core self.new core }
        ensures processor { self.new.processor ≡ self.old.processor }
    {
        device_at!(self, position, get(area))
    }

    // Senses a device: its status.
    pub(crate) fn sense(&mut self, position: Position, area: u32, modifier: u32) -> u16
        ensures status { (core : List ℕ) → result ≡ sense_answer (make_at position (makes A.Device B.Device C.Device D.Device)) (dev_at position (view A.Device B.Device C.Device D.Device self.old core)).control area modifier }
        ensures after { (core : List ℕ) → Does A.Device B.Device C.Device D.Device (λ m. calling m position (the_sense area modifier)) self.old core self.new core }
        ensures processor { self.new.processor ≡ self.old.processor }
    {
        device_at!(self, position, sense(area, modifier))
    }

    // Commands a device. A refusal is recorded at the address of the control pair.
    pub(crate) fn command(
        &mut self,
        position: Position,
        order: ControlWord,
        at: u16,
    ) -> Result<(), Fault>
        ensures answer { (core : List ℕ) → result ≡ recorded at (position_number position) (make_at position (makes A.Device B.Device C.Device D.Device)).kind (by_channel (command_answer (make_at position (makes A.Device B.Device C.Device D.Device)) (dev_at position (view A.Device B.Device C.Device D.Device self.old core)).control order.area order.function)) }
        ensures after { (core : List ℕ) → Does A.Device B.Device C.Device D.Device (λ m. calling m position (the_command order.area order.function order.modifier)) self.old core self.new core }
        ensures processor { self.new.processor ≡ self.old.processor }
    {
        // by hand, since this calls a function with the device, and the macro a method of it
        let by = position.number();
        match position {
            Position::First => command(&mut self.first, order, at, by),
            Position::Second => command(&mut self.second, order, at, by),
            Position::Third => command(&mut self.third, order, at, by),
            Position::Fourth => command(&mut self.fourth, order, at, by),
        }
    }
}
