// What a scanner and a recorder have in common.
#[derive(Clone, Copy, PartialEq, Eq, Debug, Default)]
pub struct Terminal {
    // None where it answers to no area
    pub area: Option<u32>,
    pub gap: u32,
    pub operating: bool,
    pub wait: u32,
    pub line: bool,
}
