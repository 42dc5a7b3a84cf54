// Start and step, and questions that change nothing.
ghost use Rattle.std.specs.Prelude.{◌≡◌, ℕ, List};
ghost use Rattle.engine.specs.Levels.{level_status as the_status};
ghost use Rattle.engine.specs.Code.{makes};
ghost use Rattle.controller.specs.declared.call.Call.TheVariants.{Start, Step};
ghost use Rattle.controller.specs.Held.{plainly, reported, held, MakesCall};

use crate::controller::Controller;
use device::interface::{ChannelDevice, Device};
use engine::state::Report;
use refusal::Refusal;
use registers::state::Registers;
use works::panel::{Counts, RunState};

impl<A: ChannelDevice, B: ChannelDevice, C: ChannelDevice, D: Device> Controller<A, B, C, D> {
    // Makes it running, from every state.
    pub fn start(&mut self, core: &[u32]) -> Result<(), Refusal>
        ensures { MakesCall A.Device B.Device C.Device D.Device Start self.old core.now self.new core.now (plainly result) }
    {
        self.check_lent(core)?;
        self.engine.processor.works.run = RunState::Running;
        Ok(())
    }

    // One step.
    pub fn step(&mut self, core: &mut [u32]) -> Result<Report, Refusal>
        ensures { MakesCall A.Device B.Device C.Device D.Device Step self.old core.old self.new core.new (reported result) }
    {
        self.engine.step(core)
    }

    pub fn registers(&self) -> Registers
        ensures { result ≡ self.now.engine.processor.works.registers }
    {
        let works = &self.engine.processor.works;
        works.registers
    }

    pub fn run_state(&self) -> RunState
        ensures { result ≡ self.now.engine.processor.works.run }
    {
        let works = &self.engine.processor.works;
        works.run
    }

    // Cycles since the last accepted count, or since opening if there was none.
    pub fn totals(&self) -> Counts
        ensures { result ≡ self.now.engine.processor.books.totals }
    {
        self.engine.processor.books.totals
    }

    // The status word of a level: the points latched for it and the lines that are up.
    pub fn level_status(&self, level: usize) -> u16
        ensures { (core : List ℕ) → result ≡ the_status (makes A.Device B.Device C.Device D.Device) (held A.Device B.Device C.Device D.Device self.now core) level }
    {
        self.engine.level_status(level)
    }

    // The devices, by position. Each has a type of its own, so there is a function for each.
    pub fn first(&self) -> &A
        ensures { result.now ≡ self.now.engine.first }
    {
        &self.engine.first
    }

    pub fn second(&self) -> &B
        ensures { result.now ≡ self.now.engine.second }
    {
        &self.engine.second
    }

    pub fn third(&self) -> &C
        ensures { result.now ≡ self.now.engine.third }
    {
        &self.engine.third
    }

    pub fn fourth(&self) -> &D
        ensures { result.now ≡ self.now.engine.fourth }
    {
        &self.engine.fourth
    }
}
