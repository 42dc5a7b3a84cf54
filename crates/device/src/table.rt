// How a channel's table ends.
ghost use Rattle.std.specs.Prelude.{◌≡◌};
ghost use Rattle.device.specs.Orders.{end_of};

// Whether the device is to go on, and whether it is to tell of the end.
#[derive(Clone, Copy, PartialEq, Eq, Debug)]
pub struct TableEnd {
    pub go_on: bool,
    pub tell: bool,
}

// As the word at the table's head says it.
impl From<u16> for TableEnd {
    ghost from_gives = { λ word r. r ≡ end_of word };

    fn from(word: u16) -> TableEnd {
        TableEnd {
            go_on: word / 32_768 % 2 == 1,
            tell: word / 16_384 % 2 == 1,
        }
    }
}
