// What went wrong, and whose doing it was.
use device::answer::DeviceFault;

// What a channel met: a command that its device refused, or a check in one of its cycles.
#[derive(Clone, Copy, PartialEq, Eq, Debug)]
pub enum ChannelFault {
    Refused(DeviceFault),
    Parity,
    Protect,
}

// The cause of a fault: what a channel met, or what the program did.
#[derive(Clone, Copy, PartialEq, Eq, Debug)]
pub enum Cause {
    Channel(ChannelFault),
    Parity,
    Protect,
    Operation,
    NoDevice,
}

#[derive(Clone, Copy, PartialEq, Eq, Debug)]
pub struct Fault {
    pub cause: Cause,
    pub address: u16,
    // 0 the program, 1 to 4 a device; the rules name the record with these two numbers, and a type of positions in their place
    // would ask more of whoever calls `placed` and `command`
    pub by: u32,
    // the kind of that device; the program has kind 0
    pub kind: u32,
}
