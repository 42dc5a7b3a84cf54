// Unread instruments do not matter.
ghost use Rattle.std.specs.Prelude.{◌≡◌};
ghost use Rattle.promises.specs.Unread.{OpenedAlikeAreTwins, UnreadInstrumentsDoNotMatter};

// How many clauses there are; all of them stand.
pub fn unread_instruments_do_not_matter() -> u32
    ensures stand { UnreadInstrumentsDoNotMatter }
    ensures opened { OpenedAlikeAreTwins }
    ensures count { result ≡ 10 }
{
    10
}
