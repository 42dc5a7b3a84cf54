// The laws of registers, as theorems about the definitions that the contracts of their methods cite: a function for each, since each hangs a theorem of its
// own on its contract.
#![tactic(auto)]

ghost use Rattle.std.specs.Prelude.{◌≡◌};
ghost use Rattle.register_laws.specs.Laws.{SignedRules};
ghost use Rattle.register_laws.specs.ShiftLaws.{ShiftRules};

// How many signed rules there are; all of them stand.
#[tactic(auto, using(crate::proofs::Signs::signed_rules))]
pub fn signed_rules() -> u32
    ensures stand { SignedRules }
    ensures count { result ≡ 10 }
{
    10
}

// How many rules of shifts there are; all of them stand.
#[tactic(auto, using(crate::proofs::Closed::shift_rules))]
pub fn shift_rules() -> u32
    ensures stand { ShiftRules }
    ensures count { result ≡ 9 }
{
    9
}
