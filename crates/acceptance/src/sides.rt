// The two sides of an acceptance.
use controller::call::Answer;
use controller::controller::Controller;
use device::interface::{ChannelDevice, Device};
use std::alloc::Allocator;

// Four devices, by position.
#[derive(Drop)]
pub struct Devices<A: ChannelDevice, B: ChannelDevice, C: ChannelDevice, D: Device> {
    pub first: A,
    pub second: B,
    pub third: C,
    pub fourth: D,
}

// A controller that has gone down the list, and what it answered, entry by entry.
#[derive(Drop)]
pub struct Side<A: ChannelDevice, B: ChannelDevice, C: ChannelDevice, D: Device, L: Allocator> {
    pub controller: Controller<A, B, C, D>,
    pub answers: Vec<Answer, L>,
}
