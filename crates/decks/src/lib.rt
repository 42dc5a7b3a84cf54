// Worked decks: what each shows when the definition runs it.
#![tactic(auto)]

ghost use Rattle.std.specs.Prelude.{◌≡◌, length};
ghost use Rattle.decks.specs.Decks.{decks, DecksHold, shown};

// What was settled for each deck.

// A line for each step: I, A, its program cycles and its stolen cycles.
const SETTLED: [u64; 12] = [1, 5, 2, 0, 2, 8, 2, 0, 3, 8, 1, 0];

const BETWEEN_REFERENCES: [u64; 8] = [2, 0, 4, 0, 3, 7, 2, 2];

// The same, and behind the lines word 9 of core and the stained addresses.
const UNREAD_SEVEN: [u64; 10] = [1, 0, 3, 0, 2, 8, 2, 2, 7, 9];

const UNREAD_NINE: [u64; 10] = [1, 0, 3, 0, 2, 8, 2, 2, 131_081, 9];

// A line for each step: I, A, Carry and its faults.
const PARITY: [u64; 8] = [1, 1, 0, 0, 2, 1, 0, 1];

const CARRY: [u64; 12] = [1, 65_535, 0, 0, 2, 0, 1, 0, 3, 0, 0, 0];

// A line for each step: I and its cycles, program, stolen and idle.
const STOPPED: [u64; 12] = [1, 4, 0, 0, 1, 0, 0, 1, 33, 2, 0, 0];

// A line for each call: I and its answer, which of a search is one more than the address.
const CONSOLE: [u64; 65] = [
    // start, load, stop
    0, 0, 0, 5, 0, 0,
    // 1003 hexadecimal to the switches, load I, search, display, load
    0, 0, 3, 0, 3, 4, 4, 65_537, 4, 6,
    // clear told Run at No, display, display
    4, 0, 5, 196_609, 6, 4_099,
    // 3 and Yes to the switches, clear told Display, load I, display, search, load, display
    6, 0, 6, 0, 3, 0, 4, 1, 4, 0, 5, 0, 6, 4_099,
    // count, step, count, count
    6, 0, 0, 0, 0, 6, 0, 0, 1, 6, 0, 0, 1, 1, 6, 0, 0, 0, 0,
    // a point of level 24; start, lent another core
    6, 2, 6, 1,
    // FFFF hexadecimal to the switches, load I, display
    6, 0, 4_095, 0, 0, 4_099,
];

// The same, each time for the switches, clear, load I and four displays.
const CLEARING: [u64; 56] = [
    // told Display at No
    0, 0, 0, 0, 0, 0, 1, 131_089, 2, 65_537, 3, 196_609, 4, 0,
    // at Yes
    4, 0, 4, 0, 0, 0, 1, 131_089, 2, 1, 3, 1, 4, 131_072,
    // told Run at No
    0, 0, 0, 0, 0, 0, 1, 4_096, 2, 65_537, 3, 196_609, 4, 4_096,
    // at Yes
    4, 0, 4, 0, 0, 0, 1, 4_096, 2, 4_096, 3, 4_096, 4, 4_096,
];

// The same.
const REFUSALS: [u64; 50] = [
    // start, and a step that leaves it waiting
    0, 0, 1, 1, 0, 0,
    // load I, load, display, clear, clear, search
    1, 5, 1, 5, 1, 5, 1, 5, 1, 5, 1, 5,
    // stop; points of level 24, of bit 16, and of the last of both
    1, 0, 1, 2, 1, 2, 1, 0,
    // the answers alone: the twelve calls lent another core
    1, 1, 1, 1, 1, 1, 1, 1, 1, 1, 1, 1,
    // and over an opening that was refused
    1, 1, 1, 1, 1, 1, 1, 1, 1, 1, 1, 1,
];

// The same, for start, a step, and a step that is refused.
const LIMIT: [u64; 8] = [0, 0, 1, 2, 0, 0, 1, 7];

// A line before an immediate stop, and a line after it.
const IMMEDIATE: [u64; 48] = [
    // I, A, Q, the index registers, Carry, Overflow
    25, 9, 10, 5, 6, 7, 1, 1,
    // the masks, the flags, whether the internal level and level 0 are in service, the points of level 0
    0, 255, 16_384, 1, 1, 1_024,
    // where channel 1 stands, whether the first device operates and has its line up, whether it is stopped
    21, 1, 1, 0,
    // the data and sense switches and write-protect; the totals
    3, 165, 1, 19, 4, 1,
    // after it
    0, 0, 0, 5, 6, 7, 0, 0, 65_535, 255, 0, 0, 0, 0, 0, 0, 0, 1, 3, 165, 1, 19, 4, 1,
];

// A line for each step: I, A, its program cycles and its stolen cycles.
const PANEL: [u64; 28] = [
    // until the sense switches are in A
    1, 0, 4, 0, 2, 0, 4, 0, 3, 42_240, 2, 0,
    // the forced branch of level 3, and its status in A
    25, 42_240, 2, 0, 26, 4_096, 3, 0,
    // an operation check with Check Stop on, and an idle cycle
    27, 4_096, 1, 0, 27, 4_096, 0, 0,
];

#[derive(Clone, Copy, PartialEq, Eq, Debug)]
pub enum Deck {
    // load, add, wait
    Settled,
    // a channel steals between two references of one instruction
    BetweenReferences,
    // an instrument that is not read, with reading 7, and with reading 9
    UnreadSeven,
    UnreadNine,
    // parity counts the protect bit
    Parity,
    // Carry changes with each add
    Carry,
    // a stopped controller serves no interrupt
    Stopped,
    // the calls of the console, one after another
    Console,
    // both ways to clear, at No and at Yes
    Clearing,
    // calls that are refused
    Refusals,
    // the step at which no more cycles are counted
    Limit,
    // an immediate stop in the middle of all
    Immediate,
    // the sense switches, a point's bit, and Check Stop
    Panel,
}

impl Deck {
    // What it shows.
    #[tactic(auto, using(crate::proofs::Same::each_shows))]
    pub fn shows(self) -> &'static [u64]
        ensures { result.now ≡ shown self }
    {
        match self {
            Deck::Settled => &SETTLED,
            Deck::BetweenReferences => &BETWEEN_REFERENCES,
            Deck::UnreadSeven => &UNREAD_SEVEN,
            Deck::UnreadNine => &UNREAD_NINE,
            Deck::Parity => &PARITY,
            Deck::Carry => &CARRY,
            Deck::Stopped => &STOPPED,
            Deck::Console => &CONSOLE,
            Deck::Clearing => &CLEARING,
            Deck::Refusals => &REFUSALS,
            Deck::Limit => &LIMIT,
            Deck::Immediate => &IMMEDIATE,
            Deck::Panel => &PANEL,
        }
    }
}

// How many decks there are; each shows what was settled.
#[tactic(auto, using(crate::proofs::Same::decks_hold))]
pub fn decks_that_hold() -> usize
    ensures hold { DecksHold }
    ensures count { result ≡ length decks }
{
    13
}
