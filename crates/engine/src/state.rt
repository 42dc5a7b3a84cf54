// The controller's own state, plain. It is kept in four parts: the works, which an instruction may change as it likes; the points
// of the process; the tally of one step; and the books, which no instruction touches.
use levels::state::{Flags, Masks, Points, Service};
use registers::state::Registers;
use storage::memory::CoreSize;
use works::channel::Channel;
use works::fault::Fault;
use works::panel::{Counts, RunState, Switches};

#[derive(Clone, Copy, PartialEq, Eq, Debug)]
pub struct Works {
    pub registers: Registers,
    pub masks: Masks,
    pub service: Service,
    pub flags: Flags,
    pub channel1: Channel,
    pub channel2: Channel,
    pub channel3: Channel,
    pub run: RunState,
}

// What one step did: its cycles, how many faults there were, the first of them, and whether any was a check.
#[derive(Clone, Copy, PartialEq, Eq, Debug, Default)]
pub struct Tally {
    pub counts: Counts,
    pub faults: u32,
    pub first: Option<Fault>,
    pub checked: bool,
}

// Where a device's interrupt line ends: a bit of a level's status word.
#[derive(Clone, Copy, PartialEq, Eq, Debug)]
pub struct Wire {
    pub level: usize,
    pub bit: u32,
}

// The four lines, by the devices' positions. They have names and no index, as the devices have, whose types differ.
#[derive(Clone, Copy, PartialEq, Eq, Debug)]
pub struct Wiring {
    pub first: Wire,
    pub second: Wire,
    pub third: Wire,
    pub fourth: Wire,
}

#[derive(Clone, Copy, PartialEq, Eq, Debug)]
pub struct Books {
    pub switches: Switches,
    // since opening, or since the last accepted count
    pub totals: Counts,
    // the size of the core that was opened, and whether the opening was accepted. It is no Option: no step is taken unless it was, and
    // every address of a step would have to take the size out again
    pub size: CoreSize,
    pub accepted: bool,
    pub wiring: Wiring,
}

#[derive(Clone, Copy, PartialEq, Eq, Debug)]
pub struct Processor {
    pub works: Works,
    pub points: Points,
    pub tally: Tally,
    pub books: Books,
}

// What a step answers.
#[derive(Clone, Copy, PartialEq, Eq, Debug)]
pub struct Report {
    pub counts: Counts,
    pub run: RunState,
    pub faults: u32,
    pub first: Option<Fault>,
}
