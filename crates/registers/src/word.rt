// A word goes with A.
ghost use Rattle.registers.specs.Arithmetic.{word as the_width};

use crate::operand::Operand;
use crate::state::Registers;

impl Operand for u16 {
    ghost width = { the_width };

    ghost bits = { λ n. n };

    fn to_signed(self) -> i64 {
        i64::from(self.cast_signed())
    }

    fn is_outside(number: i64) -> bool {
        i16::try_from(number).is_err()
    }

    fn plus(self, word: u16) -> (u16, bool) {
        self.overflowing_add(word)
    }

    fn minus(self, word: u16) -> (u16, bool) {
        self.overflowing_sub(word)
    }

    fn of(from: &Registers) -> u16 {
        from.a
    }

    fn put(self, registers: &mut Registers) {
        registers.a = self;
    }
}
