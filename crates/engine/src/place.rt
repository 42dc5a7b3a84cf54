// Where the four devices stand.

// A device's position, by its number. The first three have a channel each.
#[derive(Clone, Copy, PartialEq, Eq, Debug)]
pub enum Position {
    First = 1,
    Second = 2,
    Third = 3,
    Fourth = 4,
}

// Whose cycle it is, or whose command was refused: the program's, or a device's, by its position and kind. The program is no missing device, so this is
// no Option.
#[derive(Clone, Copy, PartialEq, Eq, Debug)]
pub enum By {
    Program,
    Device { position: Position, kind: u32 },
}

// A channel, by its number.
#[derive(Clone, Copy, PartialEq, Eq, Debug)]
pub enum ChannelNumber {
    Channel1,
    Channel2,
    Channel3,
}
