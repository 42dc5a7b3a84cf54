// Faults as the processor keeps them: the flag that a check raises, and the step's tally.
ghost use Rattle.std.specs.Prelude.{◌≡◌, ◌<◌};
ghost use Rattle.engine.specs.Machine.{position_number, with_flags};
ghost use Rattle.engine.specs.Faults.{fault_of, parity_cause as the_parity_cause, protect_cause as the_protect_cause, check_of as the_check, flagged, faulted};

use crate::place::{By, Position};
use crate::state::{Processor, Works};
use works::fault::{Cause, ChannelFault, Fault};

// Parity, protect and operation are checks, whoever met them. Each has its flag.
#[derive(Clone, Copy, PartialEq, Eq, Debug)]
pub(crate) enum Check {
    Parity,
    Operation,
    Protect,
}

impl Position {
    // As fault records number it.
    pub(crate) fn number(self) -> u32
        ensures { result ≡ position_number self }
    {
        self as u32
    }
}

impl By {
    // The fault of this one, by cause and address.
    pub(crate) fn fault(self, cause: Cause, address: u16) -> Fault
        ensures { result ≡ fault_of self cause address }
    {
        match self {
            By::Program => Fault {
                cause,
                address,
                by: 0,
                kind: 0,
            },
            By::Device { position, kind } => Fault {
                cause,
                address,
                by: position.number(),
                kind,
            },
        }
    }

    // The cause of a check: two functions of one match, since one that was given both causes would say at its calls what is said here.
    pub(crate) fn parity_cause(self) -> Cause
        ensures { result ≡ the_parity_cause self }
    {
        match self {
            By::Program => Cause::Parity,
            By::Device { .. } => Cause::Channel(ChannelFault::Parity),
        }
    }

    pub(crate) fn protect_cause(self) -> Cause
        ensures { result ≡ the_protect_cause self }
    {
        match self {
            By::Program => Cause::Protect,
            By::Device { .. } => Cause::Channel(ChannelFault::Protect),
        }
    }
}

// Which check a fault of this cause is, if it is one.
fn check_of(cause: Cause) -> Option<Check>
    ensures { result ≡ the_check cause }
{
    match cause {
        Cause::Parity | Cause::Channel(ChannelFault::Parity) => Some(Check::Parity),
        Cause::Protect | Cause::Channel(ChannelFault::Protect) => Some(Check::Protect),
        Cause::Operation => Some(Check::Operation),
        Cause::NoDevice | Cause::Channel(ChannelFault::Refused(_)) => None,
    }
}

impl Works {
    // Raises the flag of a check.
    fn flag(&mut self, check: Option<Check>)
        ensures { self.new ≡ with_flags (flagged check self.old.flags) self.old }
    {
        match check {
            None => {}
            Some(Check::Parity) => self.flags.parity = true,
            Some(Check::Operation) => self.flags.operation = true,
            Some(Check::Protect) => self.flags.protect = true,
        }
    }
}

impl Processor {
    // Raises the flag of a check, and notes the fault in the step's tally.
    pub(crate) fn raise(&mut self, fault: Fault)
        requires { self.old.tally.faults < 4294967295 }
        ensures { self.new ≡ faulted fault self.old }
    {
        let check = check_of(fault.cause);
        self.works.flag(check);
        self.tally.faults += 1;
        self.tally.first = self.tally.first.or(Some(fault));
        self.tally.checked |= check.is_some();
    }
}
