// What arithmetic works on: a word, which goes with A, or a double, which goes with A and Q as one number.
ghost use Rattle.std.specs.Prelude.{◌≡◌, ℕ, ◌+◌, ◌-◌, ◌%◌, ◌<◌, nat_le, nat_lt};
ghost use Rattle.std.specs.Int.Signed.{mag};
ghost use Rattle.registers.specs.Arithmetic.{Width};

use crate::state::Registers;

// The number types of std share no trait with these methods, so each width has a line for each.
pub trait Operand: Copy {
    // What it goes with, and the number that its bits make.
    ghost width: { Width };

    ghost bits: { Self → ℕ };

    fn to_signed(self) -> i64
        ensures number { result ≡ width.number (bits self) }
        ensures bound { mag result < 2147483648 };

    fn is_outside(number: i64) -> bool
        ensures { result ≡ width.beyond number };

    // The sum, and the carry out of the highest bit.
    fn plus(self, other: Self) -> (Self, bool)
        ensures sum { bits result.0 ≡ (bits self + bits other) % width.size }
        ensures carry { result.1 ≡ nat_le width.size (bits self + bits other) };

    // The difference, and the borrow.
    fn minus(self, other: Self) -> (Self, bool)
        ensures difference { bits result.0 ≡ (bits self + (width.size - bits other)) % width.size }
        ensures borrow { result.1 ≡ nat_lt (bits self) (bits other) };

    fn of(from: &Registers) -> Self
        ensures { bits result ≡ width.held from.now };

    fn put(self, registers: &mut Registers)
        ensures { registers.new ≡ width.loaded (bits self) registers.old };
}
