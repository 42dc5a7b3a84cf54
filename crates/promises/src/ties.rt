// Events and machine belong together: a device is what its own calls made of it, a word of core changes only where a store is told of, no call
// changes the core's length, a refused call comes to nothing, no call but a step makes a cycle, and a core of another length is refused.
ghost use Rattle.std.specs.Prelude.{◌≡◌};
ghost use Rattle.promises.specs.Alone.{TiesHold};

// How many clauses there are; all of them stand.
#[tactic(auto, using(crate::proofs::Refusing::ties_hold))]
pub fn ties_hold() -> u32
    ensures stand { TiesHold }
    ensures count { result ≡ 13 }
{
    13
}
