// A make that is a terminal: a terminal, and behind it what the make has of its own.
ghost use Rattle.std.specs.Prelude.{◌≡◌, [], Err};
ghost use Rattle.refusal.specs.declared.Refusal.{Refusal as Refused};
ghost use Rattle.device.specs.Laws.{AnswersNone};
ghost use Rattle.terminal.specs.Setups.{checked};
ghost use Rattle.terminal.specs.Terminals.{in_front, made_terminal, terminal as terminal_means};
ghost use Rattle.terminal.specs.Shown.{terminal_lawful};

use crate::setup::Setup;
use crate::state::Terminal;
use crate::work::Work;
use device::answer::{Asking, DeviceFault};
use device::control::ControlWord;
use device::interface::{ChannelDevice, Device, Kind};
use device::table::TableEnd;
use refusal::Refusal;

#[derive(Drop)]
pub struct Station<W, const KIND: u32> {
    terminal: Terminal,
    work: W,
}

impl<W: Work<KIND>, const KIND: u32> Station<W, KIND> {
    // Whether a device may be made so.
    pub fn check(setup: &Setup) -> Result<(), Refusal>
        ensures { result ≡ checked setup.now }
    {
        setup.check()
    }

    // At rest. Over what the check refuses it answers to no area.
    pub fn make(setup: &Setup, work: W) -> Station<W, KIND>
        ensures control { ⟦<Station<W, KIND> as Device>⟧.control result ≡ in_front (made_terminal setup.now) (W.numbers work) }
        ensures words { ⟦<Station<W, KIND> as Device>⟧.words result ≡ W.words work }
        ensures none { (e : Refused) → checked setup.now ≡ Err e → AnswersNone (terminal_means W.own) (⟦<Station<W, KIND> as Device>⟧.control result) }
    {
        Station {
            terminal: Terminal::new(setup),
            work,
        }
    }

    // The terminal's five numbers of control.
    pub fn numbers(&self) -> [usize; 5]
        ensures { result ≡ in_front self.now.terminal [] }
    {
        self.terminal.numbers()
    }

    // What the make has of its own.
    pub fn work(&self) -> &W
        ensures { result.now ≡ self.now.work }
    {
        &self.work
    }
}

impl<W: Work<KIND>, const KIND: u32> Device for Station<W, KIND> {
    type Of = Kind<KIND>;

    ghost kinded = { W.kinded };

    ghost control = { λ s. in_front s.terminal (W.numbers s.work) };

    ghost words = { λ s. W.words s.work };

    ghost means = { terminal_means W.own };

    ghost lawful = { terminal_lawful W.own W.apart };

    ghost numbered = { λ s. W.numbered s.terminal s.work };

    fn answers_to(&self, area: u32) -> bool {
        self.terminal.answers_to(area)
    }

    fn takes_function(&self, area: u32, function: u32) -> bool {
        self.answers_to(area) && self.work.takes(function)
    }

    fn operating(&self) -> bool {
        self.terminal.operating
    }

    fn line(&self) -> bool {
        self.terminal.line
    }

    fn command(&mut self, order: ControlWord) -> Result<(), DeviceFault> {
        if !self.takes_function(order.area, order.function) {
            return Err(DeviceFault::NotTaken);
        }
        self.terminal.command(self.work.start(), order.function)
    }

    fn sense(&mut self, area: u32, modifier: u32) -> u16 {
        self.terminal.sense(area, modifier)
    }

    fn put(&mut self, area: u32, word: u16) {
        if self.answers_to(area) {
            self.work.hand(word);
        }
    }

    fn get(&mut self, area: u32) -> u16 {
        if !self.answers_to(area) {
            return 0;
        }
        self.work.next_word()
    }

    fn passed(&mut self) {
        self.terminal.pass();
    }

    fn reset(&mut self) {
        self.terminal.reset();
    }
}

impl<W: Work<KIND>, const KIND: u32> ChannelDevice for Station<W, KIND> {
    fn asks(&self) -> Asking {
        if self.terminal.ready() {
            self.work.wish()
        } else {
            Asking::Nothing
        }
    }

    fn bring(&mut self) -> u16 {
        if self.asks() != Asking::Bring {
            return 0;
        }
        self.terminal.wait_for_gap();
        self.work.next_word()
    }

    fn take(&mut self, word: u16) {
        if self.asks() == Asking::Take {
            self.terminal.wait_for_gap();
            self.work.hand(word);
        }
    }

    fn finish(&mut self, end: TableEnd) {
        self.terminal.finish(end);
    }
}
