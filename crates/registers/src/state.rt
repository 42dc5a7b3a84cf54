// The registers, plain.
#[derive(Clone, Copy, Debug, Default, PartialEq, Eq)]
pub struct Registers {
    // the instruction register
    pub i: u16,
    // the accumulator
    pub a: u16,
    // its extension
    pub q: u16,
    // the index registers, each by its name and not in an array: a tag names one of three, and no index has to be bounded
    pub x1: u16,
    pub x2: u16,
    pub x3: u16,
    pub carry: bool,
    pub overflow: bool,
}

// One kind of shift: of A alone, or of A and Q as one number.
#[derive(Clone, Copy, Debug, PartialEq, Eq)]
pub enum Shift {
    LeftA,
    LeftBoth,
    RightA,
    RightBoth,
    Rotate,
}
