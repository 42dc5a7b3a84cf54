// Loading, storing and arithmetic.
ghost use Rattle.std.specs.Prelude.{◌≡◌, ◌<◌, pos, ◌*ℤ◌, ◌≢◌, int_div, int_rem};
ghost use Rattle.std.specs.Int.Signed.{mag};
ghost use Rattle.std.specs.Int.{w16, w32};
ghost use Rattle.std.proofs.Common.{of_z};
ghost use Rattle.registers.specs.Parts.{both as the_both, index as the_index, with_index};
ghost use Rattle.registers.specs.Arithmetic.{signed, indicated, added_at, subtracted_at, comparison_at, compared_at, multiplied, quotient as the_quotient, divided, anded, ored, xored};

use crate::double::double_of;
use crate::operand::Operand;
use crate::state::Registers;
use instruction::words::Index;
use std::cmp::Ordering;

fn product(a: u16, b: u16) -> u32
    ensures { result ≡ of_z w32 (signed a *ℤ signed b) }
{
    let product = i32::from(a.cast_signed()) * i32::from(b.cast_signed());
    product.cast_unsigned()
}

// A signed number that a word holds, as its bits.
fn word_of(n: i64) -> u16
    requires { mag n < 32768 }
    ensures { result ≡ of_z w16 n }
{
    (n as i16).cast_unsigned()
}

// Apart from `quotient`, whose proof does not close with these two in it.
fn quotient_wide(n: i64, d: i64) -> (i64, i64)
    requires { (mag n < 2147483648) × (d ≢ pos 0) }
    ensures { result ≡ (int_div n d, int_rem n d) }
{
    (n / d, n % d)
}

// The quotient toward zero and the remainder; none where the divisor is 0 or a word does not hold the quotient.
fn quotient(n: u32, b: u16) -> Option<(u16, u16)>
    ensures { result ≡ the_quotient n b }
{
    if b == 0 {
        return None;
    }
    let (whole, rest) = quotient_wide(n.to_signed(), b.to_signed());
    if u16::is_outside(whole) {
        None
    } else {
        Some((word_of(whole), word_of(rest)))
    }
}

impl Registers {
    // A and Q as one number.
    pub fn both(&self) -> u32
        ensures { result ≡ the_both self.now }
    {
        double_of(self.a, self.q)
    }

    // Carry changes with each sum and difference; Overflow goes on, and never off.
    fn indicate(&mut self, carry: bool, overflow: bool)
        ensures { self.new ≡ indicated carry overflow self.old }
    {
        self.carry = carry;
        self.overflow |= overflow;
    }

    pub fn index(&self, x: Index) -> u16
        ensures { result ≡ the_index x self.now }
    {
        match x {
            Index::One => self.x1,
            Index::Two => self.x2,
            Index::Three => self.x3,
        }
    }

    // LDX, of an index register.
    pub fn load_index(&mut self, x: Index, value: u16)
        ensures { self.new ≡ with_index x value self.old }
    {
        match x {
            Index::One => self.x1 = value,
            Index::Two => self.x2 = value,
            Index::Three => self.x3 = value,
        }
    }

    // LD; LDD, of a double whose low word is the one at the effective address's odd partner.
    pub fn load<N: Operand>(&mut self, n: N)
        ensures { self.new ≡ N.width.loaded (N.bits n) self.old }
    {
        n.put(self);
    }

    // A; AD
    pub fn add<N: Operand>(&mut self, n: N)
        ensures { self.new ≡ added_at N.width (N.bits n) self.old }
    {
        let held = N::of(self);
        let (sum, carry) = held.plus(n);
        sum.put(self);
        self.indicate(carry, N::is_outside(held.to_signed() + n.to_signed()));
    }

    // S; SD
    pub fn subtract<N: Operand>(&mut self, n: N)
        ensures { self.new ≡ subtracted_at N.width (N.bits n) self.old }
    {
        let held = N::of(self);
        let (difference, borrow) = held.minus(n);
        difference.put(self);
        self.indicate(borrow, N::is_outside(held.to_signed() - n.to_signed()));
    }

    // CMP; DCM. What it answers is of the accumulator, against the operand.
    pub fn compare<N: Operand>(&mut self, n: N) -> Ordering
        ensures answer { result ≡ comparison_at N.width (N.bits n) self.old }
        ensures after { self.new ≡ compared_at N.width (N.bits n) self.old }
    {
        let held = N::of(self);
        (_, self.carry) = held.minus(n);
        held.to_signed().cmp(&n.to_signed())
    }

    // M
    pub fn multiply(&mut self, word: u16)
        ensures { self.new ≡ multiplied word self.old }
    {
        self.load(product(self.a, word));
    }

    // D
    pub fn divide(&mut self, word: u16)
        ensures { self.new ≡ divided word self.old }
    {
        match quotient(self.both(), word) {
            Some((whole, rest)) => (self.a, self.q) = (whole, rest),
            None => self.overflow = true,
        }
    }

    // AND. The next two differ from it in an operator alone; one method for all three would take the operator, and be longer than their lines.
    pub fn and(&mut self, word: u16)
        ensures { self.new ≡ anded word self.old }
    {
        self.a &= word;
    }

    // OR
    pub fn or(&mut self, word: u16)
        ensures { self.new ≡ ored word self.old }
    {
        self.a |= word;
    }

    // EOR
    pub fn exclusive_or(&mut self, word: u16)
        ensures { self.new ≡ xored word self.old }
    {
        self.a ^= word;
    }
}
