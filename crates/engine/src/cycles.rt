// Program cycles and idle cycles, as plans have them. Each begins with the offers and ends with telling; a method that is given what is between, as
// a closure, would have to say of every closure what these four say of one line each.
ghost use Rattle.std.specs.Prelude.{ℕ, ◌^◌};
ghost use Rattle.engine.specs.Plan.{Plan, read as the_read, store as the_store, mark as the_mark, rest as the_rest};
ghost use Rattle.engine.specs.Cycle.{bringing, cycle};
ghost use Rattle.engine.specs.Code.{Room, Keeps, Does, Goes};

use crate::engine::Engine;
use crate::place::By;
use device::interface::{ChannelDevice, Device};

impl<A: ChannelDevice, B: ChannelDevice, C: ChannelDevice, D: Device> Engine<A, B, C, D> {
    // A cycle that reads an address: the data there.
    pub(crate) fn read(&mut self, core: &mut [u32], address: u16) -> u16
        requires room { Room (2 ^ 30) self.old.processor core.old }
        ensures goes { (k : ℕ → Plan) → Goes A.Device B.Device C.Device D.Device (the_read address k) self.old core.old (k result) self.new core.new }
        ensures keeps { Keeps 8 self.old.processor self.new.processor }
    {
        self.offers(core);
        let word = self.processor.read_word(core, By::Program, address);
        self.processor.tally.counts.program += 1;
        self.tell();
        word
    }

    // A cycle that stores data at an address: the program's, or with the clause `brings` a word that a device brought.
    pub(crate) fn store(&mut self, core: &mut [u32], address: u16, value: u16)
        requires room { Room (2 ^ 30) self.old.processor core.old }
        ensures goes { (p : Plan) → Goes A.Device B.Device C.Device D.Device (the_store address value p) self.old core.old p self.new core.new }
        ensures brings { Does A.Device B.Device C.Device D.Device (λ m. cycle m (bringing address value)) self.old core.old self.new core.new }
        ensures keeps { Keeps 8 self.old.processor self.new.processor }
    {
        self.offers(core);
        self.processor.store_word(core, By::Program, address, value);
        self.processor.tally.counts.program += 1;
        self.tell();
    }

    // A cycle that stores data at an address with a new protect bit.
    pub(crate) fn mark(&mut self, core: &mut [u32], address: u16, on: bool, value: u16)
        requires room { Room (2 ^ 30) self.old.processor core.old }
        ensures goes { (p : Plan) → Goes A.Device B.Device C.Device D.Device (the_mark address on value p) self.old core.old p self.new core.new }
        ensures keeps { Keeps 8 self.old.processor self.new.processor }
    {
        self.offers(core);
        self.processor.mark_word(core, address, on, value);
        self.processor.tally.counts.program += 1;
        self.tell();
    }

    // An idle cycle.
    pub(crate) fn rest(&mut self, core: &mut [u32])
        requires room { Room (2 ^ 30) self.old.processor core.old }
        ensures goes { (p : Plan) → Goes A.Device B.Device C.Device D.Device (the_rest p) self.old core.old p self.new core.new }
        ensures keeps { Keeps 8 self.old.processor self.new.processor }
    {
        self.offers(core);
        self.processor.tally.counts.idle += 1;
        self.tell();
    }
}
