// Opening: first a check, which borrows what it looks at, and then a making, which cannot fail.
ghost use Rattle.std.specs.Prelude.{◌≡◌, length};
ghost use Rattle.storage.specs.Memory.{core_size};
ghost use Rattle.controller.specs.Opening.{on_panel as the_panel, all_wired as the_wired, opening, opened_works as the_works, opened_books as the_books, opened as the_opened};

use crate::controller::Controller;
use device::interface::{ChannelDevice, Device};
use engine::engine::Engine;
use engine::state::{Books, Processor, Tally, Wire, Wiring, Works};
use levels::state::{Flags, LEVELS, Masks, Points, Service};
use refusal::Refusal;
use registers::state::Registers;
use storage::memory::CoreSize;
use works::channel::Channel;
use works::panel::{Counts, RunState, Switches};

// Whether a level has a status word, and the word such a bit.
pub(crate) fn on_panel(level: usize, bit: u32) -> bool
    ensures { result ≡ the_panel level bit }
{
    level < LEVELS && bit < 16
}

fn wired(wire: &Wire) -> bool
    ensures { result ≡ the_panel wire.now.level wire.now.bit }
{
    on_panel(wire.level, wire.bit)
}

fn all_wired(wiring: &Wiring) -> bool
    ensures { result ≡ the_wired wiring.now }
{
    wired(&wiring.first) && wired(&wiring.second) && wired(&wiring.third) && wired(&wiring.fourth)
}

fn check(words: usize, wiring: &Wiring) -> Result<(), Refusal>
    ensures { result ≡ opening words wiring.now }
{
    CoreSize::try_from(words)?;
    if !all_wired(wiring) {
        return Err(Refusal::Wiring);
    }
    Ok(())
}

// Whether a controller can be opened over this core with this wiring.
pub fn check_opening(core: &[u32], wiring: &Wiring) -> Result<(), Refusal>
    ensures { result ≡ opening (length core.now) wiring.now }
{
    check(core.len(), wiring)
}

pub(crate) fn opened_works() -> Works
    ensures { result ≡ the_works }
{
    Works {
        registers: Registers::default(),
        masks: Masks {
            low: 65_535,
            high: 255,
        },
        service: Service {
            levels: [false; LEVELS],
            internal: false,
        },
        flags: Flags::default(),
        channel1: Channel::Idle,
        channel2: Channel::Idle,
        channel3: Channel::Idle,
        run: RunState::Stopped,
    }
}

fn opened_books(words: usize, wiring: Wiring) -> Books
    ensures { result ≡ the_books words wiring }
{
    Books {
        switches: Switches::default(),
        totals: Counts::default(),
        // where the check refuses, no address is ever looked at
        size: CoreSize::try_from(words).unwrap_or(CoreSize::Words32768),
        accepted: check(words, &wiring).is_ok(),
        wiring,
    }
}

fn opened(words: usize, wiring: Wiring) -> Processor
    ensures { result ≡ the_opened words wiring }
{
    Processor {
        works: opened_works(),
        points: Points { words: [0; LEVELS] },
        tally: Tally::default(),
        books: opened_books(words, wiring),
    }
}

impl<A: ChannelDevice, B: ChannelDevice, C: ChannelDevice, D: Device> Controller<A, B, C, D> {
    // Opens a controller over a core and four devices. Where the check refuses, it refuses every call with 1.
    pub fn make(
        core: &[u32],
        wiring: Wiring,
        first: A,
        second: B,
        third: C,
        fourth: D,
    ) -> Controller<A, B, C, D>
        ensures processor { result.engine.processor ≡ the_opened (length core.now) wiring }
        ensures first { result.engine.first ≡ first }
        ensures second { result.engine.second ≡ second }
        ensures third { result.engine.third ≡ third }
        ensures fourth { result.engine.fourth ≡ fourth }
    {
        Controller {
            engine: Engine {
                processor: opened(core.len(), wiring),
                first,
                second,
                third,
                fourth,
            },
        }
    }
}
