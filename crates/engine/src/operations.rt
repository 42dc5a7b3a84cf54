// The operations, each by its first word, I already past that word.
ghost use Rattle.std.specs.Prelude.{ℕ, ◌^◌};
ghost use Rattle.instruction.specs.declared.words.Operation.TheVariants.{ExecuteIo, Store, StoreDouble};
ghost use Rattle.engine.specs.Code.{Room, Within, Operates};

use crate::engine::Engine;
use crate::operands::odd;
use crate::references::place;
use device::interface::{ChannelDevice, Device};
use instruction::words::{Fields, Operation};
use registers::state::Registers;
use works::panel::RunState;

impl<A: ChannelDevice, B: ChannelDevice, C: ChannelDevice, D: Device> Engine<A, B, C, D> {
    // XIO
    pub(crate) fn execute_io(&mut self, core: &mut [u32], fields: &Fields)
        requires room { Room (2 ^ 29) self.old.processor core.old }
        ensures goes { (w : ℕ) → Operates A.Device B.Device C.Device D.Device ExecuteIo fields.now w self.old core.old self.new core.new }
        ensures within { Within 64 self.old.processor self.new.processor }
    {
        let ea = self.effective(core, fields.tag, fields);
        let address = self.read(core, ea);
        let control = self.read(core, odd(ea));
        let at = place(self.processor.books.size, ea);
        self.xio(core, at, address, control);
    }

    // STO
    pub(crate) fn store_word(&mut self, core: &mut [u32], fields: &Fields)
        requires room { Room (2 ^ 29) self.old.processor core.old }
        ensures goes { (w : ℕ) → Operates A.Device B.Device C.Device D.Device Store fields.now w self.old core.old self.new core.new }
        ensures within { Within 64 self.old.processor self.new.processor }
    {
        let address = self.effective(core, fields.tag, fields);
        self.store(core, address, self.processor.works.registers.a);
    }

    // STD. The odd word is stored first.
    pub(crate) fn store_double(&mut self, core: &mut [u32], fields: &Fields)
        requires room { Room (2 ^ 29) self.old.processor core.old }
        ensures goes { (w : ℕ) → Operates A.Device B.Device C.Device D.Device StoreDouble fields.now w self.old core.old self.new core.new }
        ensures within { Within 64 self.old.processor self.new.processor }
    {
        let address = self.effective(core, fields.tag, fields);
        self.store(core, odd(address), self.processor.works.registers.q);
        self.store(core, address, self.processor.works.registers.a);
    }

    // Does an operation.
    pub(crate) fn operate(
        &mut self,
        core: &mut [u32],
        operation: Operation,
        fields: &Fields,
        word: u16,
    )
        requires room { Room (2 ^ 29) self.old.processor core.old }
        ensures goes { Operates A.Device B.Device C.Device D.Device operation fields.now word self.old core.old self.new core.new }
        ensures within { Within 64 self.old.processor self.new.processor }
    {
        // A match: a table of functions would hand out function pointers, and not all of the operations take the same.
        match operation {
            Operation::ExecuteIo => self.execute_io(core, fields),
            Operation::ShiftLeft => self.processor.works.registers.shift_left(fields),
            Operation::ShiftRight => self.processor.works.registers.shift_right(fields),
            Operation::LoadStatus => self.processor.works.registers.load_status(word),
            Operation::StoreStatus => self.store_status(core, fields, word),
            Operation::Wait => self.processor.works.run = RunState::Waiting,
            Operation::BranchStore => self.branch_store(core, fields),
            Operation::BranchSkip => self.branch_skip(core, fields),
            Operation::LoadIndex => self.load_index(core, fields),
            Operation::StoreIndex => self.store_index(core, fields),
            Operation::ModifyIndex => self.modify_index(core, fields),
            Operation::Add => self.with_operand(core, fields, Registers::add::<u16>),
            Operation::AddDouble => self.with_operand(core, fields, Registers::add::<u32>),
            Operation::Subtract => self.with_operand(core, fields, Registers::subtract::<u16>),
            Operation::SubtractDouble => self.with_operand(
                core,
                fields,
                Registers::subtract::<u32>,
            ),
            Operation::Multiply => self.with_operand(core, fields, Registers::multiply),
            Operation::Divide => self.with_operand(core, fields, Registers::divide),
            Operation::Compare => {
                let comparison = self.with_operand(core, fields, Registers::compare::<u16>);
                self.skip_by(comparison);
            }
            Operation::CompareDouble => {
                let comparison = self.with_operand(core, fields, Registers::compare::<u32>);
                self.skip_by(comparison);
            }
            Operation::Load => self.with_operand(core, fields, Registers::load::<u16>),
            Operation::LoadDouble => self.with_operand(core, fields, Registers::load::<u32>),
            Operation::Store => self.store_word(core, fields),
            Operation::StoreDouble => self.store_double(core, fields),
            Operation::And => self.with_operand(core, fields, Registers::and),
            Operation::Or => self.with_operand(core, fields, Registers::or),
            Operation::ExclusiveOr => self.with_operand(core, fields, Registers::exclusive_or),
        }
    }
}
