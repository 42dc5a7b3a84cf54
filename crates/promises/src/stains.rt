// Stained words stay sound.
ghost use Rattle.std.specs.Prelude.{◌≡◌};
ghost use Rattle.promises.specs.Alone.{StainedWordsStaySound};

// How many clauses there are; all of them stand.
#[tactic(auto, using(crate::proofs::Sounding::stained_words_are_sound))]
pub fn stained_words_are_sound() -> u32
    ensures stand { StainedWordsStaySound }
    ensures count { result ≡ 4 }
{
    4
}
