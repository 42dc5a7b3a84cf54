// The twelve calls, as entries of a list, and their answers.
use engine::state::Report;
use refusal::Refusal;
use works::panel::Switches;

// What clear is told: to clear storage, or to clear protect bits.
#[derive(Clone, Copy, PartialEq, Eq, Debug)]
pub enum ClearMode {
    Run,
    Display,
}

#[derive(Clone, Copy, PartialEq, Eq, Debug)]
pub enum Call {
    Step,
    Start,
    Stop,
    ImmediateStop,
    SetSwitches(Switches),
    Point { level: usize, bit: u32 },
    LoadI,
    Load,
    Display,
    Clear(ClearMode),
    Search,
    Count,
}

// Which core a call is lent: the opened one, where the last call left off, or one of another length.
#[derive(Clone, Copy, PartialEq, Eq, Debug)]
pub enum Lent {
    Opened,
    Other,
}

#[derive(Clone, Copy, PartialEq, Eq, Debug)]
pub struct Entry {
    pub call: Call,
    pub lent: Lent,
}

// What a count answers. Told is how many cycles each device was told of.
#[derive(Clone, Copy, PartialEq, Eq, Debug)]
pub struct Bill {
    pub program: u64,
    pub stolen: u64,
    pub idle: u64,
    pub told: u64,
}

// What a call that is not refused answers.
#[derive(Clone, Copy, PartialEq, Eq, Debug)]
pub enum Outcome {
    // of start, stop, immediate stop, switches, point, load I, load and clear
    Done,
    Stepped(Report),
    Displayed(u32),
    Found(Option<usize>),
    Counted(Bill),
}

pub type Answer = Result<Outcome, Refusal>;
