// Shifts.
ghost use Rattle.std.specs.Prelude.{◌≡◌, ◌+◌, ◌<◌};
ghost use Rattle.registers.specs.Shifts.{once, times, counted, count_left, shift_count as the_count, counting, left_kind, right_kind, shifted_left, shifted_right};

use crate::state::{Registers, Shift};
use instruction::words::{Fields, Index};

impl Shift {
    fn left(both: bool) -> Shift
        ensures { result ≡ left_kind both }
    {
        if both { Shift::LeftBoth } else { Shift::LeftA }
    }

    fn right(both: bool, around: bool) -> Shift
        ensures { result ≡ right_kind both around }
    {
        match (both, around) {
            (true, true) => Shift::Rotate,
            (true, false) => Shift::RightBoth,
            (false, _) => Shift::RightA,
        }
    }
}

impl Registers {
    #[tactic(auto, using(crate::proofs::Steps::turned))]
    fn shift_once(&mut self, shift: Shift)
        ensures { self.new ≡ once shift self.old }
    {
        let both = self.both();
        match shift {
            Shift::LeftA => {
                self.carry = self.a >= 32_768;
                self.a = self.a.wrapping_mul(2);
            }
            Shift::LeftBoth => {
                self.carry = self.a >= 32_768;
                self.load(both.wrapping_mul(2));
            }
            Shift::RightA => self.a /= 2,
            Shift::RightBoth => self.load((both.cast_signed() >> 1).cast_unsigned()),
            Shift::Rotate => self.load(both.rotate_right(1)),
        }
    }

    #[tactic(auto, using(crate::proofs::Steps::times_more))]
    // A count and a kind of shift go together in three functions here. A struct of the two would be made for each call and taken apart in it.
    fn shift_times(&mut self, count: u32, shift: Shift)
        ensures { self.new ≡ times count shift self.old }
    {
        for _ in 0..count {
            self.shift_once(shift);
        }
    }

    // Shifts until bit 0 of A is a one or the count is used up, and answers the count left.
    #[tactic(auto, using(crate::proofs::Steps::counted_more, crate::proofs::Steps::left_more))]
    fn shift_and_count(&mut self, count: u32, shift: Shift) -> u32
        ensures left { result ≡ count_left count shift self.old }
        ensures bound { result < count + 1 }
        ensures after { self.new ≡ counted count shift self.old }
    {
        for done in 0..count {
            if self.a >= 32_768 {
                return count - done;
            }
            self.shift_once(shift);
        }
        0
    }

    fn shift_count(&self, fields: &Fields) -> u32
        ensures value { result ≡ the_count fields.now.tag fields.now.count self.now }
        ensures bound { result < 64 }
    {
        match fields.tag {
            Some(x) => u32::from(self.index(x)) % 64,
            None => fields.count % 64,
        }
    }

    // The count left goes to the index register, below the eight bits that stay.
    fn shift_counting(&mut self, x: Index, count: u32, shift: Shift)
        requires { count < 64 }
        ensures { self.new ≡ counting x count shift self.old }
    {
        if count == 0 {
            return;
        }
        let left = self.shift_and_count(count, shift);
        let kept = self.index(x) / 256 * 256;
        self.load_index(x, kept + left as u16);
        self.carry = left > 0;
    }

    // SLA, SLT, SLCA and SLC.
    pub fn shift_left(&mut self, fields: &Fields)
        ensures { self.new ≡ shifted_left fields.now self.old }
    {
        let count = self.shift_count(fields);
        let shift = Shift::left(fields.indirect);
        match fields.tag {
            Some(x) if fields.branch_out => self.shift_counting(x, count, shift),
            _ => self.shift_times(count, shift),
        }
    }

    // SRA, SRT and RTE.
    pub fn shift_right(&mut self, fields: &Fields)
        ensures { self.new ≡ shifted_right fields.now self.old }
    {
        let count = self.shift_count(fields);
        self.shift_times(count, Shift::right(fields.indirect, fields.branch_out));
    }
}
