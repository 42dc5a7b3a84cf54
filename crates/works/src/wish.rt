// What a channel wishes, and the channels as requesters.
ghost use Rattle.std.specs.Prelude.{◌≡◌};
ghost use Rattle.works.specs.Channels.{wishes as the_wish};

use crate::channel::{Channel, ChannelWish};
use device::answer::Asking;
use levels::choice::Requester;

impl Channel {
    // Whether it wishes a cycle, where its device asks for this.
    pub fn wishes(&self, asking: Asking) -> bool
        ensures { result ≡ the_wish self.now asking }
    {
        match *self {
            Channel::Idle => false,
            Channel::Head { .. } | Channel::NextHead { .. } => true,
            Channel::Data { .. } => asking != Asking::Nothing,
        }
    }
}

// Level records and channel records are two kinds of requester, and one function over a lent slice of either chooses among them: so
// this record is one that implements the trait.
impl Requester for ChannelWish {
    ghost place = { λ w. w.channel };

    ghost wish = { λ w. w.wish };

    fn rank(&self) -> usize {
        self.channel
    }

    fn wishes(&self) -> bool {
        self.wish
    }
}
