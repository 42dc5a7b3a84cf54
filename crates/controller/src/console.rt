// Calls of the console that touch no core: stop, immediate stop, the switches, points, and count.
ghost use Rattle.std.specs.Prelude.{◌≡◌};
ghost use Rattle.controller.specs.declared.call.Call.TheVariants.{Stop, ImmediateStop, SetSwitches, Point, Count};
ghost use Rattle.controller.specs.Console.{at_rest as the_rest, bill_of};
ghost use Rattle.controller.specs.Held.{plainly, billed, MakesCall};

use crate::call::Bill;
use crate::controller::Controller;
use crate::opening::{on_panel, opened_works};
use device::interface::{ChannelDevice, Device};
use engine::state::{Processor, Tally, Works};
use levels::state::{LEVELS, Points};
use refusal::Refusal;
use registers::state::Registers;
use works::panel::{Counts, RunState, Switches};

// What an immediate stop leaves of the processor: the index registers and the books, and else what opening makes.
fn at_rest(processor: &Processor) -> Processor
    ensures { result ≡ the_rest processor.now }
{
    let kept = processor.works.registers;
    Processor {
        works: Works {
            registers: Registers {
                x1: kept.x1,
                x2: kept.x2,
                x3: kept.x3,
                ..Registers::default()
            },
            ..opened_works()
        },
        points: Points { words: [0; LEVELS] },
        tally: Tally::default(),
        books: processor.books,
    }
}

impl<A: ChannelDevice, B: ChannelDevice, C: ChannelDevice, D: Device> Controller<A, B, C, D> {
    // Makes it stopped, from every state.
    pub fn stop(&mut self, core: &[u32]) -> Result<(), Refusal>
        ensures { MakesCall A.Device B.Device C.Device D.Device Stop self.old core.now self.new core.now (plainly result) }
    {
        self.check_lent(core)?;
        self.engine.processor.works.run = RunState::Stopped;
        Ok(())
    }

    // Stops it at once, and returns every device to rest.
    pub fn immediate_stop(&mut self, core: &[u32]) -> Result<(), Refusal>
        ensures { MakesCall A.Device B.Device C.Device D.Device ImmediateStop self.old core.now self.new core.now (plainly result) }
    {
        self.check_lent(core)?;
        self.engine.processor = at_rest(&self.engine.processor);
        self.engine.first.reset();
        self.engine.second.reset();
        self.engine.third.reset();
        self.engine.fourth.reset();
        Ok(())
    }

    pub fn set_switches(&mut self, core: &[u32], switches: Switches) -> Result<(), Refusal>
        ensures { MakesCall A.Device B.Device C.Device D.Device (SetSwitches switches) self.old core.now self.new core.now (plainly result) }
    {
        self.check_lent(core)?;
        self.engine.processor.books.switches = switches;
        Ok(())
    }

    // Latches a point: a bit of a level's status word.
    pub fn point(&mut self, core: &[u32], level: usize, bit: u32) -> Result<(), Refusal>
        ensures { MakesCall A.Device B.Device C.Device D.Device (Point level bit) self.old core.now self.new core.now (plainly result) }
    {
        self.check_lent(core)?;
        if !on_panel(level, bit) {
            return Err(Refusal::Wiring);
        }
        self.engine.processor.points.latch(level, bit);
        Ok(())
    }

    // The totals, and their sum. No sum of them passes its type: the controller's own fact says so.
    fn bill(&self) -> Bill
        ensures { result ≡ bill_of self.now.engine.processor.books.totals }
    {
        let totals = self.engine.processor.books.totals;
        Bill {
            program: totals.program,
            stolen: totals.stolen,
            idle: totals.idle,
            told: totals.program + totals.stolen + totals.idle,
        }
    }

    // Answers the totals, and sets them to 0.
    pub fn count(&mut self, core: &[u32]) -> Result<Bill, Refusal>
        ensures { MakesCall A.Device B.Device C.Device D.Device Count self.old core.now self.new core.now (billed result) }
    {
        self.check_lent(core)?;
        let bill = self.bill();
        self.engine.processor.books.totals = Counts::default();
        Ok(bill)
    }
}
