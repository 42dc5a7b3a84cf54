// Two channel devices on one channel, which are one channel device again. So pairs of pairs work.
#![tactic(auto)]

ghost use Rattle.std.specs.Prelude.{◌≡◌, ◌++◌, Ok, refl};
ghost use Rattle.pair.specs.Pairs.{pair, joined};
ghost use Rattle.pair.specs.Shown.{pair_lawful, pair_numbered};

use device::answer::{Asking, DeviceFault};
use device::control::ControlWord;
use device::function::CONTROL;
use device::interface::{ChannelDevice, Device, Kind};
use device::table::TableEnd;
use refusal::Refusal;

mod routing;

const KIND: u32 = 3;

#[derive(Drop)]
pub struct Pair<A, B> {
    first: A,
    second: B,
}

impl<A: ChannelDevice, B: ChannelDevice> Pair<A, B> {
    // Whether these two may be made a pair, which is never refused.
    pub fn check(_first: &A, _second: &B) -> Result<(), Refusal>
        ensures { result ≡ Ok tt }
    {
        Ok(())
    }

    pub fn make(first: A, second: B) -> Pair<A, B>
        ensures first { result.first ≡ first }
        ensures second { result.second ≡ second }
    {
        Pair { first, second }
    }

    // The two accessors are no twins: one answers an A, the other a B.
    pub fn first(&self) -> &A
        ensures { result.now ≡ self.now.first }
    {
        &self.first
    }

    pub fn second(&self) -> &B
        ensures { result.now ≡ self.now.second }
    {
        &self.second
    }
}

#[tactic(auto, using(crate::specs::Shown::first_joined, crate::specs::Shown::second_joined))]
impl<A: ChannelDevice, B: ChannelDevice> Device for Pair<A, B> {
    type Of = Kind<KIND>;

    ghost kinded = { refl };

    ghost control = { λ p. joined (A.Device.control p.first) (B.Device.control p.second) };

    ghost words = { λ p. A.Device.words p.first ++ B.Device.words p.second };

    ghost means = { pair A.Device.means B.Device.means };

    ghost lawful = { pair_lawful A.Device.means B.Device.means A.Device.lawful B.Device.lawful };

    ghost numbered = { λ p. pair_numbered A.Device.means B.Device.means (A.Device.control p.first) (B.Device.control p.second) (A.Device.words p.first) (B.Device.words p.second) (A.Device.numbered p.first) (B.Device.numbered p.second) };

    fn answers_to(&self, area: u32) -> bool {
        self.first.answers_to(area) || self.second.answers_to(area)
    }

    // A call goes to the one of the two that it is for, which an `if` says plainer than a helper: since A and B are two types, it would
    // be passed the same call as two closures, and be there four times, by area and by work, over & and over &mut. A macro would hide what each method
    // is about, which is whom it calls.
    fn takes_function(&self, area: u32, function: u32) -> bool {
        if self.area_to_first(area) {
            self.first.takes_function(area, function)
        } else {
            self.second.takes_function(area, function)
        }
    }

    fn operating(&self) -> bool {
        self.first.operating() || self.second.operating()
    }

    fn line(&self) -> bool {
        self.first.line() || self.second.line()
    }

    fn command(&mut self, order: ControlWord) -> Result<(), DeviceFault> {
        if !self.takes_function(order.area, order.function) {
            return Err(DeviceFault::NotTaken);
        }
        if self.operating() && order.function != CONTROL {
            return Err(DeviceFault::Busy);
        }
        if self.area_to_first(order.area) {
            self.first.command(order)
        } else {
            self.second.command(order)
        }
    }

    fn sense(&mut self, area: u32, modifier: u32) -> u16 {
        if self.area_to_first(area) {
            self.first.sense(area, modifier)
        } else {
            self.second.sense(area, modifier)
        }
    }

    fn put(&mut self, area: u32, word: u16) {
        if self.area_to_first(area) {
            self.first.put(area, word);
        } else {
            self.second.put(area, word);
        }
    }

    #[tactic(auto, using(crate::proofs::Places::got_second, crate::proofs::Places::get_first, crate::proofs::Places::get_second, crate::proofs::Places::word_second, crate::proofs::Places::words_second))]
    fn get(&mut self, area: u32) -> u16 {
        if self.area_to_first(area) {
            self.first.get(area)
        } else {
            self.second.get(area)
        }
    }

    fn passed(&mut self) {
        self.first.passed();
        self.second.passed();
    }

    fn reset(&mut self) {
        self.first.reset();
        self.second.reset();
    }
}

#[tactic(auto, using(crate::specs::Shown::first_joined, crate::specs::Shown::second_joined))]
impl<A: ChannelDevice, B: ChannelDevice> ChannelDevice for Pair<A, B> {
    fn asks(&self) -> Asking {
        if self.work_to_first() {
            self.first.asks()
        } else {
            self.second.asks()
        }
    }

    #[tactic(auto, using(crate::proofs::Places::place_second, crate::proofs::Places::bring_first, crate::proofs::Places::bring_second, crate::proofs::Places::word_second, crate::proofs::Places::words_second))]
    fn bring(&mut self) -> u16 {
        if self.work_to_first() {
            self.first.bring()
        } else {
            self.second.bring()
        }
    }

    fn take(&mut self, word: u16) {
        if self.work_to_first() {
            self.first.take(word);
        } else {
            self.second.take(word);
        }
    }

    fn finish(&mut self, end: TableEnd) {
        if self.work_to_first() {
            self.first.finish(end);
        } else {
            self.second.finish(end);
        }
    }
}
