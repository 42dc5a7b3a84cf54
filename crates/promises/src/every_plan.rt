// What holds of every plan, so of every instruction that is made of plans.
ghost use Rattle.std.specs.Prelude.{◌≡◌};
ghost use Rattle.promises.specs.Plans.{PlansKeep};

// How many clauses there are; all of them stand.
#[tactic(auto, using(crate::proofs::EveryPlan::every_plan_keeps))]
pub fn every_plan_keeps_the_promises() -> u32
    ensures stand { PlansKeep }
    ensures count { result ≡ 7 }
{
    7
}
