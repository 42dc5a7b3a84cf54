// The bill adds up.
ghost use Rattle.std.specs.Prelude.{◌≡◌};
ghost use Rattle.promises.specs.Alone.{BillAlwaysAddsUp};

// How many clauses there are; all of them stand.
pub fn bill_adds_up() -> u32
    ensures stand { BillAlwaysAddsUp }
    ensures count { result ≡ 7 }
{
    7
}
