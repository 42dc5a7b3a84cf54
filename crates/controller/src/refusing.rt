// What several calls are refused for, each test by itself. A call makes them in order of their numbers.
ghost use Rattle.std.specs.Prelude.{◌≡◌, if◌then◌else◌};
ghost use Rattle.engine.specs.Step.{lent_right};
ghost use Rattle.controller.specs.Console.{is_stopped};
ghost use Rattle.controller.specs.Held.{held};

use crate::controller::Controller;
use device::interface::{ChannelDevice, Device};
use refusal::Refusal;
use works::panel::RunState;

impl<A: ChannelDevice, B: ChannelDevice, C: ChannelDevice, D: Device> Controller<A, B, C, D> {
    // Refused with 1, as every call is: a core that is not lent right.
    pub(crate) fn check_lent(&self, core: &[u32]) -> Result<(), Refusal>
        ensures { result ≡ (if lent_right (held A.Device B.Device C.Device D.Device self.now core.now) then Ok tt else Err Refusal.Length) }
    {
        if !self.engine.processor.books.lent_right(core.len()) {
            return Err(Refusal::Length);
        }
        Ok(())
    }

    // Refused with 5: a controller that runs or waits.
    pub(crate) fn check_stopped(&self) -> Result<(), Refusal>
        ensures { result ≡ (if is_stopped self.now.engine.processor.works.run then Ok tt else Err Refusal.NotStopped) }
    {
        if self.engine.processor.works.run != RunState::Stopped {
            return Err(Refusal::NotStopped);
        }
        Ok(())
    }
}
