// Status words: latched points, raised lines and the internal flags.
ghost use Rattle.std.specs.Prelude.{◌≡◌};
ghost use Rattle.levels.specs.Standing.{flag_word, status as the_status, latched, dropped};

use crate::state::{Flags, LEVELS, Points};

impl Flags {
    // The internal level's status word: bit 0 parity, bit 1 operation, bit 2 protect. A method with a name, as a level's status is one, and no `From`.
    pub fn word(&self) -> u16
        ensures { result ≡ flag_word self.now }
    {
        u16::from(self.parity) * 32_768
            + u16::from(self.operation) * 16_384
            + u16::from(self.protect) * 8_192
    }
}

impl Points {
    // A level's status word, with the bits of its raised lines.
    pub fn status(&self, level: usize, lines: u16) -> u16
        ensures { result ≡ the_status self.now.words level lines }
    {
        self.words.get(level).map_or(lines, |word| word | lines)
    }

    // Latches a point by level and bit; no change where there is no such level or bit.
    pub fn latch(&mut self, level: usize, bit: u32)
        ensures { self.new.words ≡ latched level bit self.old.words }
    {
        // By index: what std says of a slice's `get_mut` leaves open what the words are after the write.
        if level < LEVELS && bit < 16 {
            self.words[level] |= 1u16 << (15 - bit);
        }
    }

    // Drops a level's points.
    pub fn drop_level(&mut self, level: usize)
        ensures { self.new.words ≡ dropped level self.old.words }
    {
        // By index, as in `latch`.
        if level < LEVELS {
            self.words[level] = 0;
        }
    }
}
