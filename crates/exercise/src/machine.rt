// The machine that is exercised: a core of 4,096 words and four devices, each wired to a level of its own.
use crate::deck::{DECK, PROTECTED, READINGS, WRONG};
use engine::engine::Engine;
use engine::state::{Books, Processor, Tally, Wire, Wiring, Works};
use levels::state::{Flags, LEVELS, Masks, Points, Service};
use recorder::Recorder;
use registers::state::Registers;
use scanner::{Readings, Scanner};
use storage::memory::CoreSize;
use storage::word::{data_of, word_of};
use terminal::setup::Setup;
use works::channel::Channel;
use works::panel::{Counts, RunState, Switches};

pub type Exercised = Engine<Scanner<'static>, Recorder, Scanner<'static>, Recorder>;

// The weight of a storage word's parity bit.
const PARITY: u32 = 131_072;

// Bit 0 of a level.
fn wire(level: usize) -> Wire {
    Wire { level, bit: 0 }
}

// At 0 and running, with every level masked.
fn works() -> Works {
    Works {
        registers: Registers::default(),
        masks: Masks {
            low: 65_535,
            high: 255,
        },
        service: Service {
            levels: [false; LEVELS],
            internal: false,
        },
        flags: Flags::default(),
        channel1: Channel::Idle,
        channel2: Channel::Idle,
        channel3: Channel::Idle,
        run: RunState::Running,
    }
}

fn processor() -> Processor {
    Processor {
        works: works(),
        points: Points { words: [0; LEVELS] },
        tally: Tally::default(),
        books: Books {
            switches: Switches::default(),
            totals: Counts::default(),
            size: CoreSize::Words4096,
            accepted: true,
            wiring: Wiring {
                first: wire(0),
                second: wire(1),
                third: wire(2),
                fourth: wire(3),
            },
        },
    }
}

pub(crate) fn machine() -> Exercised {
    Engine {
        processor: processor(),
        first: Scanner::make(&Setup { area: 1, gap: 1 }, Readings::new(&READINGS)),
        second: recorder::make(&Setup { area: 2, gap: 3 }),
        third: Scanner::make(&Setup { area: 3, gap: 2 }, Readings::new(&[])),
        fourth: recorder::make(&Setup { area: 4, gap: 1 }),
    }
}

// Puts data into core from an address on.
fn place(core: &mut [u32], address: usize, words: &[u16]) {
    for (word, data) in core.iter_mut().skip(address).zip(words) {
        *word = word_of(*data, false);
    }
}

// Turns the parity bits of the words that are to be wrong.
fn spoil(core: &mut [u32]) {
    for address in WRONG {
        if let Some(word) = core.get_mut(address) {
            *word ^= PARITY;
        }
    }
}

// Puts the deck into core.
pub(crate) fn load(core: &mut [u32]) {
    for (address, words) in DECK {
        place(core, address, words);
    }
    spoil(core);
    if let Some(word) = core.get_mut(PROTECTED) {
        *word = word_of(data_of(*word), true);
    }
}
