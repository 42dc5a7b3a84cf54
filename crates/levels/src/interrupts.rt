// Which interrupt is due, and what is in service.
ghost use Rattle.std.specs.Prelude.{◌≡◌, true, not, position};
ghost use Rattle.levels.specs.Standing.{is_masked, standing};
ghost use Rattle.levels.specs.Interrupts.{due as the_due, highest as the_highest, with_service, ended, masked_low, masked_high};

use crate::choice::first_behind;
use crate::state::{Flags, Interrupt, LEVELS, LevelWish, Masks, Service};
use std::array;

impl Masks {
    // There is no level past the last, and nothing unmasks it.
    pub fn is_masked(&self, level: usize) -> bool
        ensures { result ≡ is_masked self.now level }
    {
        if level < 16 {
            (self.low >> (15 - level)) % 2 == 1
        } else if level < LEVELS {
            (self.high >> (23 - level)) % 2 == 1
        } else {
            true
        }
    }

    // Masks levels 0 to 15 by a word's bits.
    pub fn write_low(&mut self, word: u16)
        ensures { self.new ≡ masked_low word self.old }
    {
        self.low = word;
    }

    // Masks levels 16 to 23 by bits 0 to 7 of a word.
    pub fn write_high(&mut self, word: u16)
        ensures { self.new ≡ masked_high word self.old }
    {
        let [high, _] = word.to_be_bytes();
        self.high = high;
    }
}

impl Service {
    fn highest_level(&self) -> Option<usize>
        ensures { result ≡ position (λ on. on) self.now.levels }
    {
        self.levels.iter().position(|on| *on)
    }

    // A level stands where it lies above the highest in service, is unmasked, and has a status.
    fn standing(&self, masks: &Masks, words: &[u16; LEVELS]) -> [LevelWish; LEVELS]
        ensures { result ≡ standing masks.now (not self.now.internal) 0 self.now.levels words.now }
    {
        let serving = self.highest_level().unwrap_or(LEVELS);
        array::from_fn(|level| LevelWish {
            level,
            wish: !self.internal && level < serving && !masks.is_masked(level) && words[level] != 0,
        })
    }

    // The interrupt that is due by the flags, the masks and the levels' status words, or none.
    pub fn due(&self, flags: &Flags, masks: &Masks, words: &[u16; LEVELS]) -> Option<Interrupt>
        ensures { result ≡ the_due flags.now masks.now words.now self.now }
    {
        if !self.internal && flags.word() != 0 {
            return Some(Interrupt::Internal);
        }
        first_behind(&self.standing(masks, words), None).map(Interrupt::Level)
    }

    // The highest in service, or none.
    pub fn highest(&self) -> Option<Interrupt>
        ensures { result ≡ the_highest self.now }
    {
        if self.internal {
            return Some(Interrupt::Internal);
        }
        self.highest_level().map(Interrupt::Level)
    }

    fn set(&mut self, interrupt: Interrupt, on: bool)
        ensures { self.new ≡ with_service interrupt on self.old }
    {
        match interrupt {
            Interrupt::Internal => self.internal = on,
            Interrupt::Level(level) => {
                // By index: what std says of a slice's `get_mut` leaves open what the levels are after the write.
                if level < LEVELS {
                    self.levels[level] = on;
                }
            }
        }
    }

    // Takes an interrupt into service.
    pub fn begin(&mut self, interrupt: Interrupt)
        ensures { self.new ≡ with_service interrupt true self.old }
    {
        self.set(interrupt, true);
    }

    // Ends the highest in service, if there is one.
    pub fn end_highest(&mut self)
        ensures { self.new ≡ ended self.old }
    {
        if let Some(interrupt) = self.highest() {
            self.set(interrupt, false);
        }
    }
}
