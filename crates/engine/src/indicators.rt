// STS, in both its forms.
ghost use Rattle.std.specs.Prelude.{◌^◌, length};
ghost use Rattle.instruction.specs.declared.words.Operation.TheVariants.{StoreStatus};
ghost use Rattle.engine.specs.Plan.{done};
ghost use Rattle.engine.specs.Instructions.{store_status, protect as the_protect};
ghost use Rattle.engine.specs.Code.{Room, Within, Goes, Operates};

use crate::engine::Engine;
use device::interface::{ChannelDevice, Device};
use instruction::words::Fields;

impl<A: ChannelDevice, B: ChannelDevice, C: ChannelDevice, D: Device> Engine<A, B, C, D> {
    // Stores Carry and Overflow, and turns them off. The cycle that stores comes before they go off.
    fn keep_status(&mut self, core: &mut [u32], fields: &Fields)
        requires room { Room (2 ^ 29) self.old.processor core.old }
        ensures goes { Goes A.Device B.Device C.Device D.Device (store_status (length core.old) fields.now self.old.processor.works.registers) self.old core.old done self.new core.new }
        ensures within { Within 32 self.old.processor self.new.processor }
    {
        let address = self.effective(core, fields.tag, fields);
        let old = self.read(core, address);
        let mut registers = self.processor.works.registers;
        let status = registers.store_status(old);
        self.store(core, address, status);
        self.processor.works.registers = registers;
    }

    // Sets a word's protect bit, where the write-protect switch lets it.
    fn protect(&mut self, core: &mut [u32], on: bool, fields: &Fields)
        requires room { Room (2 ^ 29) self.old.processor core.old }
        ensures goes { Goes A.Device B.Device C.Device D.Device (the_protect (length core.old) on fields.now self.old.processor.works.registers) self.old core.old done self.new core.new }
        ensures within { Within 32 self.old.processor self.new.processor }
    {
        let address = self.effective(core, fields.tag, fields);
        if self.processor.books.switches.write_protect {
            let old = self.read(core, address);
            self.mark(core, address, on, old);
        }
    }

    // STS
    pub(crate) fn store_status(&mut self, core: &mut [u32], fields: &Fields, word: u16)
        requires room { Room (2 ^ 29) self.old.processor core.old }
        ensures goes { Operates A.Device B.Device C.Device D.Device StoreStatus fields.now word self.old core.old self.new core.new }
        ensures within { Within 64 self.old.processor self.new.processor }
    {
        if fields.long && fields.branch_out {
            self.protect(core, word % 2 == 1, fields);
        } else {
            self.keep_status(core, fields);
        }
    }
}
