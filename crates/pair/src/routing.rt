// Which of the two a call goes to.
ghost use Rattle.std.specs.Prelude.{◌≡◌, not, ◌||◌};

use crate::Pair;
use device::interface::ChannelDevice;

impl<A: ChannelDevice, B: ChannelDevice> Pair<A, B> {
    // Whether a call for this area goes to the first: it does where the first answers to the area.
    pub(crate) fn area_to_first(&self, area: u32) -> bool
        ensures { result ≡ A.Device.means.answers (A.Device.control self.now.first) area }
    {
        self.first.answers_to(area)
    }

    // Whether the channel's calls go to the first: they do where the first operates, or neither does.
    pub(crate) fn work_to_first(&self) -> bool
        ensures { result ≡ (A.Device.means.operating (A.Device.control self.now.first) || not (B.Device.means.operating (B.Device.control self.now.second))) }
    {
        self.first.operating() || !self.second.operating()
    }
}
