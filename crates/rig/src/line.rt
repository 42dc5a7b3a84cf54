// What a run prints of a step.
ghost use Rattle.std.specs.Prelude.{◌≡◌, Some};
ghost use Rattle.rig.specs.Lines.{line_of, line_text};

use engine::state::Report;
use registers::state::Registers;
use std::fmt;

// The step's number; I and A after it; the program and stolen cycles that it made.
#[derive(Clone, Copy, PartialEq, Eq, Debug)]
pub struct StepLine {
    pub step: u32,
    pub i: u16,
    pub a: u16,
    pub program: u64,
    pub stolen: u64,
}

impl StepLine {
    // The line of a step that left these registers and answered this report.
    pub fn of(step: u32, registers: &Registers, report: &Report) -> StepLine
        ensures { result ≡ line_of step registers.now report.now }
    {
        StepLine {
            step,
            i: registers.i,
            a: registers.a,
            program: report.counts.program,
            stolen: report.counts.stolen,
        }
    }
}

impl fmt::Display for StepLine {
    ghost output = { λ l. Some (line_text l) };

    fn fmt<W: fmt::Write>(&self, f: &mut fmt::Formatter<W>) -> fmt::Result {
        write!(f, "{} ", self.step)?;
        write!(f, "{:04X} {:04X} ", self.i, self.a)?;
        write!(f, "{} {}", self.program, self.stolen)
    }
}
