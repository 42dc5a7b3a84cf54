// Protected words stay.
ghost use Rattle.std.specs.Prelude.{◌≡◌};
ghost use Rattle.promises.specs.Alone.{ProtectedWordsAlwaysStay};

// How many clauses there are; all of them stand.
#[tactic(auto, using(crate::proofs::Runs::protected_words_stay))]
pub fn protected_words_stay() -> u32
    ensures stand { ProtectedWordsAlwaysStay }
    ensures count { result ≡ 2 }
{
    2
}
