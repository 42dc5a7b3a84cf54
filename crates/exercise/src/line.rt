// What is printed of a step.
use engine::state::Report;
use registers::state::Registers;
use std::fmt;
use works::fault::Fault;
use works::panel::RunState;

// The step's number; I and A after it; its cycles, the run state, how many faults there were, and the first of them.
#[derive(Clone, Copy, PartialEq, Eq, Debug)]
pub struct Line {
    pub step: u32,
    pub registers: Registers,
    pub report: Report,
}

// The run state in a word.
fn state(run: RunState) -> &'static str {
    match run {
        RunState::Stopped => "stopped",
        RunState::Running => "running",
        RunState::Waiting => "waiting",
    }
}

// A fault, if there was one: its cause, where, by which position, and that device's kind.
#[derive(Clone, Copy, PartialEq, Eq, Debug)]
struct First(Option<Fault>);

impl fmt::Display for First {
    fn fmt<W: fmt::Write>(&self, f: &mut fmt::Formatter<W>) -> fmt::Result {
        let Some(fault) = self.0 else {
            return write!(f, "-");
        };
        let cause = fault.cause.number();
        write!(
            f,
            "{cause}:{:04X}:{}:{}",
            fault.address, fault.by, fault.kind
        )
    }
}

impl fmt::Display for Line {
    fn fmt<W: fmt::Write>(&self, f: &mut fmt::Formatter<W>) -> fmt::Result {
        let counts = self.report.counts;
        write!(f, "{} ", self.step)?;
        write!(f, "{:04X} {:04X} ", self.registers.i, self.registers.a)?;
        write!(f, "{} {} {} ", counts.program, counts.stolen, counts.idle)?;
        let first = First(self.report.first);
        write!(
            f,
            "{} {} {first}",
            state(self.report.run),
            self.report.faults
        )
    }
}
