// The step: its refusals, what it does, and its end.
ghost use Rattle.std.specs.Prelude.{◌≡◌, ◌+◌, ◌^◌, ◌<◌, ◌&&◌, ◌==◌, nat_lt};
ghost use Rattle.engine.specs.Machine.{words_of_size as the_words};
ghost use Rattle.engine.specs.Step.{ended_step, told, report_of as the_report, step as the_step};
ghost use Rattle.engine.specs.Code.{Fits, spent, Does, Steps};

use crate::engine::Engine;
use crate::state::{Books, Processor, Report, Tally};
use device::interface::{ChannelDevice, Device};
use refusal::Refusal;
use works::panel::RunState;

// Steps are refused from here on.
const LIMIT: u64 = 1_000_000_000_000;

impl Books {
    // Whether a core of so many words is the one that was opened.
    pub fn lent_right(&self, words: usize) -> bool
        ensures { result ≡ (self.now.accepted && words == the_words self.now.size) }
    {
        self.accepted && words == self.size.words()
    }

    // Whether a step is still counted.
    pub(crate) fn below_limit(&self) -> bool
        ensures is { result ≡ nat_lt (told self.now.totals) 1000000000000 }
    {
        let c = &self.totals;
        c.program < LIMIT
            && c.stolen < LIMIT
            && c.idle < LIMIT
            && c.program + c.stolen + c.idle < LIMIT
    }
}

impl Processor {
    // Check Stop, and the totals.
    fn end_step(&mut self)
        requires { told self.old.books.totals + spent self.old < 2 ^ 62 }
        ensures { self.new ≡ ended_step self.old }
    {
        if self.books.switches.check_stop && self.tally.checked {
            self.works.run = RunState::Stopped;
        }
        // Field by field: a `+=` of `Counts`, which is public, would require room of its caller.
        self.books.totals.program += self.tally.counts.program;
        self.books.totals.stolen += self.tally.counts.stolen;
        self.books.totals.idle += self.tally.counts.idle;
    }

    // What the last step came to.
    pub(crate) fn report(&self) -> Report
        ensures { result ≡ the_report self.now }
    {
        Report {
            counts: self.tally.counts,
            run: self.works.run,
            faults: self.tally.faults,
            first: self.tally.first,
        }
    }
}

impl<A: ChannelDevice, B: ChannelDevice, C: ChannelDevice, D: Device> Engine<A, B, C, D> {
    // A step that is not refused.
    fn take_step(&mut self, core: &mut [u32]) -> Report
        requires fits { Fits self.old.processor core.old }
        requires small { told self.old.processor.books.totals < 1000000000000 }
        ensures after { Does A.Device B.Device C.Device D.Device the_step self.old core.old self.new core.new }
        ensures answer { result ≡ the_report self.new.processor }
        ensures bounded { told self.new.processor.books.totals < 2 ^ 62 }
    {
        self.processor.tally = Tally::default();
        self.act(core);
        self.processor.end_step();
        self.processor.report()
    }

    // One step: what it answers, or why it is refused. A refused step changes nothing. The sum of the totals stays one that a
    // caller can have: a step begins below the limit, and adds little.
    pub fn step(&mut self, core: &mut [u32]) -> Result<Report, Refusal>
        ensures steps { Steps A.Device B.Device C.Device D.Device self.old core.old result self.new core.new }
        ensures bounded { told self.old.processor.books.totals < 2 ^ 62 → told self.new.processor.books.totals < 2 ^ 62 }
    {
        if !self.processor.books.lent_right(core.len()) {
            return Err(Refusal::Length);
        }
        if !self.processor.books.below_limit() {
            return Err(Refusal::CycleLimit);
        }
        Ok(self.take_step(core))
    }
}
