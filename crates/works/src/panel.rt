// The console's switches, the run state, and the counts of cycles.
#[derive(Clone, Copy, PartialEq, Eq, Debug, Default)]
pub struct Switches {
    // the data entry switches
    pub data: u16,
    // the sense switches, the first in the highest bit
    pub sense: u8,
    pub check_stop: bool,
    // at Yes
    pub write_protect: bool,
}

#[derive(Clone, Copy, PartialEq, Eq, Debug, Default)]
pub enum RunState {
    #[default]
    Stopped,
    Running,
    Waiting,
}

// Cycles so far, since they were last set to 0. Their sum is how many each device was told of.
#[derive(Clone, Copy, PartialEq, Eq, Debug, Default)]
pub struct Counts {
    pub program: u64,
    pub stolen: u64,
    pub idle: u64,
}
