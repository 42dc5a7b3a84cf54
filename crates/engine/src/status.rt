// Status words of the levels, what is due, and what a sense of interrupts answers.
ghost use Rattle.std.specs.Prelude.{◌≡◌, ℕ, ◌-◌, ◌^◌, ◌<◌, ◌&&◌, List, if◌then◌else◌, Some, ◌==◌, bit_or, slice_index};
ghost use Rattle.levels.specs.declared.state.Interrupt.TheVariants.{Level};
ghost use Rattle.engine.specs.Levels.{wire_bit, lines_at as the_lines, level_status as the_status, statuses as the_statuses, due_now, sensed_status as the_sensed};
ghost use Rattle.engine.specs.Code.{view, makes};

use crate::engine::Engine;
use crate::state::Wire;
use device::interface::{ChannelDevice, Device};
use levels::state::{Interrupt, LEVELS};

impl Wire {
    // Its bit of a status word. Bit 0 is the leftmost.
    fn mask(self) -> u16
        ensures { result ≡ 2 ^ (15 - self.bit) }
    {
        1 << 15u32.saturating_sub(self.bit)
    }

    // The bit that a raised line gives to a level.
    fn bit_at(self, level: usize, raised: bool) -> u16
        ensures { result ≡ wire_bit self raised level }
    {
        if self.level == level && raised {
            self.mask()
        } else {
            0
        }
    }

    // Adds a raised line to the levels' words. Nothing changes where there is no such level.
    fn raise(self, raised: bool, words: &mut [u16; LEVELS])
        ensures { (level : ℕ) → level < 24 → slice_index words.new level ≡ bit_or (slice_index words.old level) (wire_bit self raised level) }
    {
        if raised && self.level < LEVELS {
            // by index: the library's `get_mut` says nothing of the words afterwards
            words[self.level] |= self.mask();
        }
    }
}

impl<A: ChannelDevice, B: ChannelDevice, C: ChannelDevice, D: Device> Engine<A, B, C, D> {
    fn lines_at(&self, level: usize) -> u16
        ensures { (core : List ℕ) → result ≡ the_lines (makes A.Device B.Device C.Device D.Device) (view A.Device B.Device C.Device D.Device self.now core) level }
    {
        let wiring = self.processor.books.wiring;
        let first = wiring.first.bit_at(level, self.first.line());
        let second = wiring.second.bit_at(level, self.second.line());
        let third = wiring.third.bit_at(level, self.third.line());
        let fourth = wiring.fourth.bit_at(level, self.fourth.line());
        first | (second | (third | fourth))
    }

    // A level's status word: the points latched for it and the lines that are up.
    pub fn level_status(&self, level: usize) -> u16
        ensures { (core : List ℕ) → result ≡ the_status (makes A.Device B.Device C.Device D.Device) (view A.Device B.Device C.Device D.Device self.now core) level }
    {
        self.processor.points.status(level, self.lines_at(level))
    }

    // The status words of all levels. Every step needs them, so each line is asked once and not once a level.
    fn statuses(&self) -> [u16; LEVELS]
        ensures { (core : List ℕ) → result ≡ the_statuses (makes A.Device B.Device C.Device D.Device) (view A.Device B.Device C.Device D.Device self.now core) 0 24 }
    {
        let wiring = self.processor.books.wiring;
        let mut words = self.processor.points.words;
        wiring.first.raise(self.first.line(), &mut words);
        wiring.second.raise(self.second.line(), &mut words);
        wiring.third.raise(self.third.line(), &mut words);
        wiring.fourth.raise(self.fourth.line(), &mut words);
        words
    }

    // The interrupt that is due, if one is.
    pub(crate) fn due(&self) -> Option<Interrupt>
        ensures range { (l : ℕ) → result ≡ Some (Level l) → l < 24 }
        ensures is { (core : List ℕ) → result ≡ due_now (makes A.Device B.Device C.Device D.Device) (view A.Device B.Device C.Device D.Device self.now core) }
    {
        let works = &self.processor.works;
        let words = self.statuses();
        // So it is at most steps: no level has to be gone through.
        if works.flags.word() == 0 && words == [0; LEVELS] {
            return None;
        }
        works.service.due(&works.flags, &works.masks, &words)
    }

    // The status of the highest level in service, or 0.
    pub(crate) fn sensed_status(&self) -> u16
        ensures { (core : List ℕ) → result ≡ the_sensed (makes A.Device B.Device C.Device D.Device) (view A.Device B.Device C.Device D.Device self.now core) }
    {
        let works = &self.processor.works;
        // one match of three cases: with `map_or` and a closure the goal stays open
        match works.service.highest() {
            None => 0,
            Some(Interrupt::Internal) => works.flags.word(),
            Some(Interrupt::Level(level)) => self.level_status(level),
        }
    }
}
