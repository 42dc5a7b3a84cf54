// Decoding. Bits are numbered from the left, from 0.
ghost use Rattle.std.specs.Prelude.{◌≡◌, ◌%◌, ◌<◌, Some};
ghost use Rattle.instruction.specs.Decoding.{bit as the_bit, by_code as the_operation, as_operation, index_of as the_index, extended as the_extended, conditions_of, fields_of};
ghost use Rattle.instruction.specs.Texts.{no_operation_text};

use crate::words::{Conditions, Fields, Index, Operation};
use std::error::Error;
use std::fmt;

// A first word that is no operation.
#[derive(Clone, Copy, Debug, PartialEq, Eq)]
pub struct NotAnOperation;

impl fmt::Display for NotAnOperation {
    ghost output = { λ e. Some no_operation_text };

    fn fmt<W: fmt::Write>(&self, f: &mut fmt::Formatter<W>) -> fmt::Result {
        write!(f, "no operation")
    }
}

impl Error for NotAnOperation {}

fn bit(word: u16, number: u32) -> bool
    requires { number < 16 }
    ensures { result ≡ the_bit word number }
{
    word >> (15 - number) & 1 == 1
}

fn by_code(code: u16, long: bool) -> Option<Operation>
    ensures { result ≡ the_operation code long }
{
    let short = !long;
    match code {
        1 => Some(Operation::ExecuteIo),
        2 => short.then_some(Operation::ShiftLeft),
        3 => short.then_some(Operation::ShiftRight),
        4 => short.then_some(Operation::LoadStatus),
        5 => Some(Operation::StoreStatus),
        6 => short.then_some(Operation::Wait),
        8 => Some(Operation::BranchStore),
        9 => Some(Operation::BranchSkip),
        12 => Some(Operation::LoadIndex),
        13 => Some(Operation::StoreIndex),
        14 => Some(Operation::ModifyIndex),
        16 => Some(Operation::Add),
        17 => Some(Operation::AddDouble),
        18 => Some(Operation::Subtract),
        19 => Some(Operation::SubtractDouble),
        20 => Some(Operation::Multiply),
        21 => Some(Operation::Divide),
        22 => Some(Operation::Compare),
        23 => Some(Operation::CompareDouble),
        24 => Some(Operation::Load),
        25 => Some(Operation::LoadDouble),
        26 => Some(Operation::Store),
        27 => Some(Operation::StoreDouble),
        28 => Some(Operation::And),
        29 => Some(Operation::Or),
        30 => Some(Operation::ExclusiveOr),
        _ => None,
    }
}

// The operation of an instruction's first word; a word that is none is an operation check.
impl TryFrom<u16> for Operation {
    type Error = NotAnOperation;

    ghost try_from_gives = { λ word r. r ≡ as_operation word };

    fn try_from(word: u16) -> Result<Operation, NotAnOperation> {
        by_code(word / 2_048 % 32, bit(word, 5)).ok_or(NotAnOperation)
    }
}

// A tag that names no index register is no error, so this is an Option.
fn index_of(tag: u16) -> Option<Index>
    ensures { result ≡ the_index tag }
{
    match tag {
        1 => Some(Index::One),
        2 => Some(Index::Two),
        3 => Some(Index::Three),
        _ => None,
    }
}

fn extended(displacement: u16) -> u16
    ensures { result ≡ the_extended (displacement % 256) }
{
    let [_, low] = displacement.to_be_bytes();
    i16::from(low.cast_signed()).cast_unsigned()
}

impl From<u16> for Conditions {
    ghost from_gives = { λ word r. r ≡ conditions_of word };

    fn from(word: u16) -> Conditions {
        Conditions {
            zero: bit(word, 10),
            minus: bit(word, 11),
            plus: bit(word, 12),
            even: bit(word, 13),
            carry_off: bit(word, 14),
            overflow_off: bit(word, 15),
        }
    }
}

// The fields of an instruction's first word.
impl From<u16> for Fields {
    ghost from_gives = { λ word r. r ≡ fields_of word };

    fn from(word: u16) -> Fields {
        Fields {
            long: bit(word, 5),
            tag: index_of(word / 256 % 4),
            displacement: extended(word),
            indirect: bit(word, 8),
            branch_out: bit(word, 9),
            conditions: Conditions::from(word),
            count: u32::from(word % 64),
        }
    }
}
