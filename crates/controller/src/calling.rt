// Any of the twelve calls, as an entry of a list has it.
ghost use Rattle.std.specs.Prelude.{◌≡◌};
ghost use Rattle.controller.specs.Held.{plainly, MakesCall};

use crate::call::{Answer, Call, Outcome};
use crate::controller::Controller;
use device::interface::{ChannelDevice, Device};
use refusal::Refusal;

// The answer of a call that has nothing to tell.
fn done(made: Result<(), Refusal>) -> Answer
    ensures { result ≡ plainly made }
{
    made.map(|()| Outcome::Done)
}

impl<A: ChannelDevice, B: ChannelDevice, C: ChannelDevice, D: Device> Controller<A, B, C, D> {
    // Makes the call that it is told.
    pub fn make_call(&mut self, core: &mut [u32], call: Call) -> Answer
        ensures { MakesCall A.Device B.Device C.Device D.Device call self.old core.old self.new core.new result }
    {
        match call {
            Call::Step => self.step(core).map(Outcome::Stepped),
            Call::Start => done(self.start(core)),
            Call::Stop => done(self.stop(core)),
            Call::ImmediateStop => done(self.immediate_stop(core)),
            Call::SetSwitches(switches) => done(self.set_switches(core, switches)),
            Call::Point { level, bit } => done(self.point(core, level, bit)),
            Call::LoadI => done(self.load_i(core)),
            Call::Load => done(self.load(core)),
            Call::Display => self.display(core).map(Outcome::Displayed),
            Call::Clear(mode) => done(self.clear(core, mode)),
            Call::Search => self.search(core).map(Outcome::Found),
            Call::Count => self.count(core).map(Outcome::Counted),
        }
    }
}
