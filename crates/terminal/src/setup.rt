// What a scanner or a recorder is given when it is made.
#[derive(Clone, Copy, PartialEq, Eq, Debug)]
pub struct Setup {
    pub area: u32,
    // cycles that it waits after each word through its channel
    pub gap: u32,
}
