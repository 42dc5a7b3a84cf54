// A double goes with A and Q as one number.
ghost use Rattle.std.specs.Prelude.{◌≡◌, ◌+◌, ◌*◌};
ghost use Rattle.registers.specs.Arithmetic.{double as the_width};

use crate::operand::Operand;
use crate::state::Registers;

// Two words as one number, the first in its high half.
pub fn double_of(high: u16, low: u16) -> u32
    ensures { result ≡ high * 65536 + low }
{
    u32::from(high) * 65_536 + u32::from(low)
}

impl Operand for u32 {
    ghost width = { the_width };

    ghost bits = { λ n. n };

    fn to_signed(self) -> i64 {
        i64::from(self.cast_signed())
    }

    fn is_outside(number: i64) -> bool {
        i32::try_from(number).is_err()
    }

    fn plus(self, double: u32) -> (u32, bool) {
        self.overflowing_add(double)
    }

    fn minus(self, double: u32) -> (u32, bool) {
        self.overflowing_sub(double)
    }

    fn of(from: &Registers) -> u32 {
        from.both()
    }

    fn put(self, registers: &mut Registers) {
        registers.a = (self / 65_536) as u16;
        registers.q = (self % 65_536) as u16;
    }
}
