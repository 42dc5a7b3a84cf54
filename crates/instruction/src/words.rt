// What an instruction's first word is made of.
#[derive(Clone, Copy, Debug, PartialEq, Eq)]
pub enum Operation {
    // XIO
    ExecuteIo,
    // SLA, SLT, SLCA, SLC
    ShiftLeft,
    // SRA, SRT, RTE
    ShiftRight,
    // LDS
    LoadStatus,
    // STS
    StoreStatus,
    // WAIT
    Wait,
    // BSI
    BranchStore,
    // BSC
    BranchSkip,
    // LDX
    LoadIndex,
    // STX
    StoreIndex,
    // MDX
    ModifyIndex,
    // A
    Add,
    // AD
    AddDouble,
    // S
    Subtract,
    // SD
    SubtractDouble,
    // M
    Multiply,
    // D
    Divide,
    // CMP
    Compare,
    // DCM
    CompareDouble,
    // LD
    Load,
    // LDD
    LoadDouble,
    // STO
    Store,
    // STD
    StoreDouble,
    // AND
    And,
    // OR
    Or,
    // EOR
    ExclusiveOr,
}

// An index register, as a tag names it.
#[derive(Clone, Copy, Debug, PartialEq, Eq)]
pub enum Index {
    One,
    Two,
    Three,
}

// What a branch tests. Each condition is tested where its bit is on.
#[derive(Clone, Copy, Debug, Default, PartialEq, Eq)]
pub struct Conditions {
    pub zero: bool,
    pub minus: bool,
    pub plus: bool,
    pub even: bool,
    pub carry_off: bool,
    pub overflow_off: bool,
}

#[derive(Clone, Copy, Debug, Default, PartialEq, Eq)]
pub struct Fields {
    // F: the instruction has a second word
    pub long: bool,
    // T: no index register, or one of three
    pub tag: Option<Index>,
    // sixteen bits, with the sign carried to the left
    pub displacement: u16,
    // bit 8
    pub indirect: bool,
    // bit 9
    pub branch_out: bool,
    pub conditions: Conditions,
    // a shift count, 0 to 63
    pub count: u32,
}
