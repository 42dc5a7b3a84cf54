// What a step does: an interrupt's forced branch, an instruction, or an idle cycle.
ghost use Rattle.std.specs.Prelude.{◌≡◌, ℕ, ◌^◌, ◌<◌, length};
ghost use Rattle.instruction.specs.Decoding.{decoded};
ghost use Rattle.engine.specs.Plan.{done};
ghost use Rattle.engine.specs.Instructions.{instruction as the_instruction, executed as the_executed};
ghost use Rattle.engine.specs.Interrupt.{vector as the_vector, forced_branch as the_forced};
ghost use Rattle.levels.specs.declared.state.Interrupt.TheVariants.{Level};
ghost use Rattle.engine.specs.Step.{step_plan};
ghost use Rattle.engine.specs.Code.{Room, Within, view, makes, Goes};

use crate::engine::Engine;
use crate::place::By;
use crate::references::place;
use device::interface::{ChannelDevice, Device};
use instruction::words::{Fields, Operation};
use levels::state::Interrupt;
use works::fault::Cause;
use works::panel::RunState;

// Where an interrupt's vector stands. That its level is below 24 is asked here and of what leads here, since the public type takes any number.
fn vector(interrupt: Interrupt) -> u16
    requires { (l : ℕ) → interrupt ≡ Level l → l < 24 }
    ensures { result ≡ the_vector interrupt }
{
    match interrupt {
        Interrupt::Internal => 8,
        Interrupt::Level(level) => 11 + level as u16,
    }
}

impl<A: ChannelDevice, B: ChannelDevice, C: ChannelDevice, D: Device> Engine<A, B, C, D> {
    // Does what a fetched word says; a word that is no operation is a check, at its own address.
    fn execute(&mut self, core: &mut [u32], at: u16, word: u16)
        requires room { Room (2 ^ 29) self.old.processor core.old }
        ensures goes { Goes A.Device B.Device C.Device D.Device (the_executed (makes A.Device B.Device C.Device D.Device) (length core.old) at (decoded word) word self.old.processor.works.registers) self.old core.old done self.new core.new }
        ensures within { Within 64 self.old.processor self.new.processor }
    {
        match Operation::try_from(word) {
            Err(_) => self
                .processor
                .raise(By::Program.fault(Cause::Operation, at)),
            Ok(operation) => self.operate(core, operation, &Fields::from(word), word),
        }
    }

    // One instruction.
    fn instruction(&mut self, core: &mut [u32])
        requires room { Room (2 ^ 28) self.old.processor core.old }
        ensures goes { Goes A.Device B.Device C.Device D.Device (the_instruction (makes A.Device B.Device C.Device D.Device) (length core.old) self.old.processor.works.registers) self.old core.old done self.new core.new }
        ensures within { Within 72 self.old.processor self.new.processor }
    {
        let at = place(self.processor.books.size, self.processor.works.registers.i);
        let word = self.second(core);
        self.execute(core, at, word);
    }

    // Begins the service of an interrupt.
    fn forced_branch(&mut self, core: &mut [u32], interrupt: Interrupt)
        requires range { (l : ℕ) → interrupt ≡ Level l → l < 24 }
        requires room { Room (2 ^ 28) self.old.processor core.old }
        ensures goes { Goes A.Device B.Device C.Device D.Device (the_forced (length core.old) interrupt self.old.processor.works.registers) self.old core.old done self.new core.new }
        ensures within { Within 16 self.old.processor self.new.processor }
    {
        self.processor.works.service.begin(interrupt);
        self.processor.works.run = RunState::Running;
        let word = self.read(core, vector(interrupt));
        self.link(core, word);
    }

    // What a step does, by the run state.
    pub(crate) fn act(&mut self, core: &mut [u32])
        requires room { Room (2 ^ 28) self.old.processor core.old }
        ensures goes { Goes A.Device B.Device C.Device D.Device (step_plan (makes A.Device B.Device C.Device D.Device) (view A.Device B.Device C.Device D.Device self.old core.old)) self.old core.old done self.new core.new }
        ensures within { Within 72 self.old.processor self.new.processor }
    {
        match self.processor.works.run {
            RunState::Stopped => self.rest(core),
            RunState::Running => match self.due() {
                Some(interrupt) => self.forced_branch(core, interrupt),
                None => self.instruction(core),
            },
            RunState::Waiting => match self.due() {
                Some(interrupt) => self.forced_branch(core, interrupt),
                None => self.rest(core),
            },
        }
    }
}
