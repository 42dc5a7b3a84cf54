// The processor with its four devices. The core is lent beside it, call by call: a struct of both leaves as many clauses, each longer
// by `self.old.engine.now` for `self.old`.
use crate::state::Processor;
use device::interface::{ChannelDevice, Device};

#[derive(Drop)]
pub struct Engine<A: ChannelDevice, B: ChannelDevice, C: ChannelDevice, D: Device> {
    pub processor: Processor,
    pub first: A,
    pub second: B,
    pub third: C,
    pub fourth: D,
}
