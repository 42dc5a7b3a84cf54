// The channels' records.
use device::table::TableEnd;

// Where a channel stands in its table.
#[derive(Clone, Copy, PartialEq, Eq, Debug, Default)]
pub enum Channel {
    #[default]
    Idle,
    // at a table's head
    Head {
        address: u16,
    },
    // in data: at a word of it, with so many to come. A count of 0 lasts from the last word's reference until the cycle has been told
    Data {
        address: u16,
        count: u16,
        end: TableEnd,
    },
    // behind the data, where the address of another head stands
    NextHead {
        address: u16,
    },
}

// A channel as a requester: a rank and a wish, as the project's rules name a requester's record.
#[derive(Clone, Copy, PartialEq, Eq, Debug)]
pub struct ChannelWish {
    pub channel: usize,
    pub wish: bool,
}
