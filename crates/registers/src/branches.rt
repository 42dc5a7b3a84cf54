// Conditions, index registers and status.
ghost use Rattle.std.specs.Prelude.{◌≡◌};
ghost use Rattle.registers.specs.Parts.{index as the_index, with_i};
ghost use Rattle.registers.specs.Branches.{acc_holds, holds, tested, modified as the_modified, skips, i_modified, index_modified, status_loaded, status_word, status_stored};

use crate::state::Registers;
use instruction::words::{Conditions, Index};

// What MDX makes of a word, and whether it then skips.
#[derive(Clone, Copy, Debug, PartialEq, Eq)]
pub struct Modified {
    pub word: u16,
    pub skip: bool,
}

// MDX, of any word: a register's or one of core.
pub fn modify(old: u16, by: u16) -> Modified
    ensures { result ≡ record { word = the_modified old by; skip = skips old by } }
{
    let word = old.wrapping_add(by);
    let was_negative = old.cast_signed() < 0;
    let is_negative = word.cast_signed() < 0;
    Modified {
        word,
        skip: word == 0 || was_negative != is_negative,
    }
}

fn accumulator_holds(a: u16, conditions: &Conditions) -> bool
    ensures { result ≡ acc_holds conditions.now a }
{
    (conditions.zero && a == 0)
        || (conditions.minus && a.cast_signed() < 0)
        || (conditions.plus && a.cast_signed() > 0)
        || (conditions.even && a % 2 == 0)
}

impl Registers {
    // Tests what BSC and BSI name: whether any of it holds. Overflow, if it is named, goes off.
    pub fn test(&mut self, conditions: &Conditions) -> bool
        ensures answer { result ≡ holds conditions.now self.old }
        ensures after { self.new ≡ tested conditions.now self.old }
    {
        let carry_off = conditions.carry_off && !self.carry;
        let overflow_off = conditions.overflow_off && !self.overflow;
        let held = accumulator_holds(self.a, conditions) || carry_off || overflow_off;
        self.overflow = self.overflow && !conditions.overflow_off;
        held
    }

    // MDX, of an index register: whether it skips.
    pub fn modify_index(&mut self, x: Index, by: u16) -> bool
        ensures answer { result ≡ skips (the_index x self.old) by }
        ensures after { self.new ≡ index_modified x by self.old }
    {
        let modified = modify(self.index(x), by);
        self.load_index(x, modified.word);
        modified.skip
    }

    // LDX, with no tag.
    pub fn load_i(&mut self, value: u16)
        ensures { self.new ≡ with_i value self.old }
    {
        self.i = value;
    }

    // MDX, with no tag, in the short form.
    pub fn modify_i(&mut self, by: u16)
        ensures { self.new ≡ i_modified by self.old }
    {
        self.i = self.i.wrapping_add(by);
    }

    // LDS, by the instruction's own word.
    pub fn load_status(&mut self, word: u16)
        ensures { self.new ≡ status_loaded word self.old }
    {
        self.carry = word / 2 % 2 == 1;
        self.overflow = word % 2 == 1;
    }

    // STS: what is stored where this word stood.
    pub fn store_status(&mut self, word: u16) -> u16
        ensures answer { result ≡ status_word word self.old }
        ensures after { self.new ≡ status_stored self.old }
    {
        let status = word / 256 * 256 + u16::from(self.carry) * 2 + u16::from(self.overflow);
        self.carry = false;
        self.overflow = false;
        status
    }
}
