// BSI and BSC.
ghost use Rattle.std.specs.Prelude.{◌≡◌, ℕ, ◌^◌, length, if◌then◌else◌, Some, None};
ghost use Rattle.instruction.specs.declared.words.Operation.TheVariants.{BranchStore, BranchSkip};
ghost use Rattle.registers.specs.declared.state.Registers.{Registers};
ghost use Rattle.levels.specs.Interrupts.{ended};
ghost use Rattle.engine.specs.Plan.{Plan, done};
ghost use Rattle.engine.specs.Instructions.{advanced, branching, branch_store};
ghost use Rattle.engine.specs.Code.{Room, Within, Goes, Operates};

use crate::channels::onward;
use crate::engine::Engine;
use crate::operands::indexed;
use device::interface::{ChannelDevice, Device};
use instruction::words::Fields;
use levels::state::Service;

// Where bit 9 is on and BSC does skip or branch, the highest in service is ended.
fn leave(service: &mut Service, fields: &Fields)
    ensures { service.new ≡ (if fields.now.branch_out then ended service.old else service.old) }
{
    if fields.branch_out {
        service.end_highest();
    }
}

impl<A: ChannelDevice, B: ChannelDevice, C: ChannelDevice, D: Device> Engine<A, B, C, D> {
    // Where a long form branches to; nowhere where a condition that it names holds, and then it reads no indirect word.
    fn target(&mut self, core: &mut [u32], fields: &Fields) -> Option<u16>
        requires room { Room (2 ^ 29) self.old.processor core.old }
        ensures goes { (k : ℕ → Registers → Plan) (a : ℕ) → result ≡ Some a → Goes A.Device B.Device C.Device D.Device (branching (length core.old) fields.now self.old.processor.works.registers k) self.old core.old (k a (advanced (length core.old) 1 self.old.processor.works.registers)) self.new core.new }
        ensures stays { (k : ℕ → Registers → Plan) → result ≡ None → Goes A.Device B.Device C.Device D.Device (branching (length core.old) fields.now self.old.processor.works.registers k) self.old core.old done self.new core.new }
        ensures at { self.new.processor.works.registers.i ≡ (advanced (length core.old) 1 self.old.processor.works.registers).i }
        ensures within { Within 16 self.old.processor self.new.processor }
    {
        let address = self.second(core);
        let direct = indexed(&self.processor.works.registers, fields.tag, 0, address);
        if self.processor.works.registers.test(&fields.conditions) {
            return None;
        }
        Some(self.indirect(core, fields.indirect, direct))
    }

    // Stores I, already past the instruction, and goes on behind it.
    pub(crate) fn link(&mut self, core: &mut [u32], address: u16)
        requires room { Room (2 ^ 30) self.old.processor core.old }
        ensures goes { Goes A.Device B.Device C.Device D.Device (branch_store (length core.old) address self.old.processor.works.registers) self.old core.old done self.new core.new }
        ensures within { Within 8 self.old.processor self.new.processor }
    {
        self.store(core, address, self.processor.works.registers.i);
        self.processor.works.registers.i = onward(self.processor.books.size, address, 1);
    }

    // BSI
    pub(crate) fn branch_store(&mut self, core: &mut [u32], fields: &Fields)
        requires room { Room (2 ^ 29) self.old.processor core.old }
        ensures goes { (w : ℕ) → Operates A.Device B.Device C.Device D.Device BranchStore fields.now w self.old core.old self.new core.new }
        ensures within { Within 64 self.old.processor self.new.processor }
    {
        if fields.long {
            if let Some(address) = self.target(core, fields) {
                self.link(core, address);
            }
        } else {
            let address = self.effective(core, fields.tag, fields);
            self.link(core, address);
        }
    }

    // BSC
    pub(crate) fn branch_skip(&mut self, core: &mut [u32], fields: &Fields)
        requires room { Room (2 ^ 29) self.old.processor core.old }
        ensures goes { (w : ℕ) → Operates A.Device B.Device C.Device D.Device BranchSkip fields.now w self.old core.old self.new core.new }
        ensures within { Within 64 self.old.processor self.new.processor }
    {
        if fields.long {
            if let Some(address) = self.target(core, fields) {
                leave(&mut self.processor.works.service, fields);
                self.processor.jump(address);
            }
        } else if self.processor.works.registers.test(&fields.conditions) {
            leave(&mut self.processor.works.service, fields);
            self.processor.advance(1);
        }
    }
}
