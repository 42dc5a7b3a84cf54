// The functions of a control word. 3 and 7 are senses, and no command names them.
// They stay plain numbers: any number may be given, and what an area does not know is refused as not taken, so that an enum
// would need one more case to hold the rest.
pub const WRITE: u32 = 1;

pub const READ: u32 = 2;

pub const SENSE_INTERRUPT: u32 = 3;

pub const CONTROL: u32 = 4;

pub const INITIALIZE_WRITE: u32 = 5;

pub const INITIALIZE_READ: u32 = 6;

pub const SENSE_DEVICE: u32 = 7;
