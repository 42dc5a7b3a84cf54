// The settled examples, as theorems about the definitions and as what the code answers.
#![tactic(auto)]

ghost use Rattle.std.specs.Prelude.{◌≡◌, ◌++◌, map, length};
ghost use Rattle.settled.specs.Examples.{AllHold, examples, word_examples, sum_examples, division_examples, shift_examples, counting_examples, skips_at, bit as the_bit, numbers, holding as the_registers, seen as the_seen, count_a};
ghost use Rattle.registers.specs.Branches.{holds};
ghost use Rattle.registers.specs.Shifts.{shifted_left};

use instruction::words::{Conditions, Fields, Index};
use registers::state::Registers;
use storage::word::word_of;

// How many examples there are; each of them holds of the definitions.
#[tactic(auto, using(crate::proofs::Same::all_hold))]
pub fn examples_that_hold() -> usize
    ensures hold { AllHold }
    ensures count { result ≡ length examples }
{
    24
}

// What the code makes of the examples on storage words.
pub fn settled_words() -> [u32; 3]
    ensures { result ≡ numbers word_examples }
{
    [word_of(1, false), word_of(1, true), word_of(0, false)]
}

fn holding(a: u16, q: u16, x1: u16) -> Registers
    ensures { result ≡ the_registers a q x1 }
{
    Registers {
        a,
        q,
        x1,
        ..Registers::default()
    }
}

// What the code makes of the examples on sums. (The next is like it in shape; what it shows is another method, so they are two.)
pub fn settled_sums() -> (Registers, Registers)
    ensures { the_seen result.0 ++ the_seen result.1 ≡ numbers sum_examples }
{
    let mut first = holding(32_767, 0, 0);
    let mut second = holding(65_535, 0, 0);
    first.add(1u16);
    second.add(1u16);
    (first, second)
}

// What the code makes of the examples on quotients.
pub fn settled_quotients() -> (Registers, Registers)
    ensures { the_seen result.0 ++ the_seen result.1 ≡ numbers division_examples }
{
    let mut first = holding(65_535, 65_529, 0);
    let mut second = holding(0, 32_768, 0);
    first.divide(2);
    second.divide(1);
    (first, second)
}

// Shift left and count A, by index register 1.
fn counting() -> Fields
    ensures { result ≡ count_a }
{
    Fields {
        tag: Some(Index::One),
        displacement: 64,
        branch_out: true,
        ..Fields::default()
    }
}

// Registers after that, with A and index register 1 as given.
fn counted(a: u16, x1: u16) -> Registers
    ensures { result ≡ shifted_left count_a (the_registers a 0 x1) }
{
    let mut registers = holding(a, 0, x1);
    registers.shift_left(&counting());
    registers
}

// What the code makes of the examples on shift and count.
pub fn settled_shifts() -> (Registers, Registers)
    ensures { the_seen result.0 ++ the_seen result.1 ≡ numbers shift_examples }
{
    (counted(4_096, 325), counted(0, 325))
}

// What the code makes of the manual's examples on shift and count. A tuple, so that the clause can name each.
pub fn settled_counts() -> (Registers, Registers, Registers, Registers)
    ensures { the_seen result.0 ++ (the_seen result.1 ++ (the_seen result.2 ++ the_seen result.3)) ≡ numbers counting_examples }
{
    (
        counted(2_048, 3),
        counted(2_048, 4),
        counted(2_048, 5),
        counted(2_048, 6),
    )
}

fn skips(a: u16, conditions: &Conditions) -> bool
    ensures { result ≡ holds conditions.now (the_registers a 0 0) }
{
    holding(a, 0, 0).test(conditions)
}

// What the code makes of a row of the manual's table of conditions, at 0, 1, 2, -1 and -2.
pub fn settled_skips(zero: bool, minus: bool, plus: bool, even: bool) -> [bool; 5]
    ensures { map the_bit result ≡ skips_at zero minus plus even }
{
    let conditions = Conditions {
        zero,
        minus,
        plus,
        even,
        ..Conditions::default()
    };
    [0, 1, 2, 65_535, 65_534].map(|a| skips(a, &conditions))
}
