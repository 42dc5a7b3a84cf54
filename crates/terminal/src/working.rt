// How a terminal works, and the check of what it is given.
ghost use Rattle.std.specs.Prelude.{◌≡◌, ℕ, ◌-◌, ◌%◌, true, false, not, ◌&&◌, ◌||◌, List, [], if◌then◌else◌, Ok, Err, ◌==◌};
ghost use Rattle.device.specs.declared.answer.DeviceFault.TheVariants.{Busy};
ghost use Rattle.device.specs.Calls.{when_accepted};
ghost use Rattle.terminal.specs.Setups.{checked, area_fits as area_may_be};
ghost use Rattle.terminal.specs.Terminals.{is_own, area_number, status as status_is, made_terminal, in_front, obeyed};

use crate::setup::Setup;
use crate::state::Terminal;
use device::answer::DeviceFault;
use device::function::CONTROL;
use device::table::TableEnd;
use refusal::Refusal;

fn area_fits(area: u32) -> bool
    ensures { result ≡ area_may_be area }
{
    (1..32).contains(&area)
}

impl Setup {
    // Whether a device may be made so: refused by its area first, then by its gap.
    pub fn check(&self) -> Result<(), Refusal>
        ensures { result ≡ checked self.now }
    {
        if !area_fits(self.area) {
            return Err(Refusal::Area);
        }
        if !(1..256).contains(&self.gap) {
            return Err(Refusal::Gap);
        }
        Ok(())
    }
}

// Not operating, no wait, line off.
fn at_rest(area: Option<u32>, gap: u32) -> Terminal
    ensures { result ≡ record { area = area; gap = gap; operating = false; wait = 0; line = false } }
{
    Terminal {
        area,
        gap,
        ..Terminal::default()
    }
}

impl Terminal {
    // At rest. Over what the check refuses it answers to no area.
    pub fn new(setup: &Setup) -> Terminal
        ensures { result ≡ made_terminal setup.now }
    {
        let area = setup.check().ok().map(|()| setup.area);
        at_rest(area, setup.gap)
    }

    // The five numbers of control. A method, since a `From` for five numbers would not say which five.
    pub fn numbers(&self) -> [usize; 5]
        ensures { result ≡ in_front self.now [] }
    {
        [
            self.area.unwrap_or(0) as usize,
            self.gap as usize,
            usize::from(self.operating),
            self.wait as usize,
            usize::from(self.line),
        ]
    }

    pub fn answers_to(&self, area: u32) -> bool
        ensures { result ≡ is_own (area_number self.now.area) area }
    {
        area_fits(area) && self.area == Some(area)
    }

    // A function that the device takes, of which `start` starts it and Control stops it. Busy while it operates, but for
    // Control.
    pub fn command(&mut self, start: u32, function: u32) -> Result<(), DeviceFault>
        ensures answer { result ≡ (if self.old.operating && not (function == 4) then Err Busy else Ok tt) }
        ensures after { (rest : List ℕ) → in_front self.new rest ≡ when_accepted result (obeyed start (in_front self.old rest) function) (in_front self.old rest) }
        ensures area { self.new.area ≡ self.old.area }
    {
        if self.operating && function != CONTROL {
            return Err(DeviceFault::Busy);
        }
        if function == start {
            self.operating = true;
            self.wait = 0;
        } else if function == CONTROL {
            self.operating = false;
        }
        Ok(())
    }

    // The line in bit 0 and operating in bit 1. It is a status word made of two of the fields, so no conversion of the terminal.
    pub fn status(&self) -> u16
        ensures { result ≡ status_is self.now.line self.now.operating }
    {
        u16::from(self.line) * 32_768 + u16::from(self.operating) * 16_384
    }

    // The status, after which an odd modifier turns the line off; 0 for another area.
    pub fn sense(&mut self, area: u32, modifier: u32) -> u16
        ensures answer { result ≡ (if is_own (area_number self.old.area) area then status_is self.old.line self.old.operating else 0) }
        ensures after { self.new ≡ record self.old { line = if is_own (area_number self.old.area) area && modifier % 2 == 1 then false else self.old.line } }
    {
        if !self.answers_to(area) {
            return 0;
        }
        let status = self.status();
        if modifier % 2 == 1 {
            self.line = false;
        }
        status
    }

    pub fn pass(&mut self)
        ensures { self.new ≡ record self.old { wait = self.old.wait - 1 } }
    {
        self.wait = self.wait.saturating_sub(1);
    }

    pub fn reset(&mut self)
        ensures { self.new ≡ record self.old { operating = false; wait = 0; line = false } }
    {
        *self = at_rest(self.area, self.gap);
    }

    // Operating, and no wait.
    pub fn ready(&self) -> bool
        ensures { result ≡ (self.now.operating && self.now.wait == 0) }
    {
        self.operating && self.wait == 0
    }

    pub fn wait_for_gap(&mut self)
        ensures { self.new ≡ record self.old { wait = self.old.gap } }
    {
        self.wait = self.gap;
    }

    // A table's end.
    pub fn finish(&mut self, end: TableEnd)
        ensures { self.new ≡ record self.old { operating = self.old.operating && end.go_on; line = self.old.line || end.tell } }
    {
        self.operating &= end.go_on;
        self.line |= end.tell;
    }
}
