// The rules of what is due, as a theorem about the definitions that the contracts cite. A function for each theorem: what it hangs on its contract is its own.
ghost use Rattle.std.specs.Prelude.{◌≡◌};
ghost use Rattle.levels.specs.Laws.{InterruptRules};

// How many rules there are; all of them stand.
#[tactic(auto, using(crate::proofs::Due::interrupt_rules))]
pub fn interrupt_rules() -> u32
    ensures stand { InterruptRules }
    ensures count { result ≡ 7 }
{
    7
}
