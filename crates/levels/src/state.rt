// What is kept of the levels, plain.
pub const LEVELS: usize = 24;

// The flags of the internal level.
#[derive(Clone, Copy, PartialEq, Eq, Debug, Default)]
pub struct Flags {
    pub parity: bool,
    pub operation: bool,
    pub protect: bool,
}

// The mask register: a word for levels 0 to 15, a byte for levels 16 to 23. A level is masked where its bit is on.
#[derive(Clone, Copy, PartialEq, Eq, Debug)]
pub struct Masks {
    pub low: u16,
    pub high: u8,
}

// What is in service.
#[derive(Clone, Copy, PartialEq, Eq, Debug)]
pub struct Service {
    pub levels: [bool; LEVELS],
    pub internal: bool,
}

// The points that are latched, a word for each level.
#[derive(Clone, Copy, PartialEq, Eq, Debug)]
pub struct Points {
    pub words: [u16; LEVELS],
}

#[derive(Clone, Copy, PartialEq, Eq, Debug)]
pub enum Interrupt {
    Internal,
    Level(usize),
}

// A level as a requester: a rank and a wish, as the project's rules name a requester's record.
#[derive(Clone, Copy, PartialEq, Eq, Debug)]
pub struct LevelWish {
    pub level: usize,
    pub wish: bool,
}
