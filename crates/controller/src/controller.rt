// A controller over four devices. The host lends it a core with each call.
ghost use Rattle.std.specs.Prelude.{◌^◌, ◌<◌};
ghost use Rattle.engine.specs.Step.{told};

use device::interface::{ChannelDevice, Device};
use engine::engine::Engine;

#[derive(Drop)]
pub struct Controller<A: ChannelDevice, B: ChannelDevice, C: ChannelDevice, D: Device> {
    pub(crate) engine: Engine<A, B, C, D>,

    // A count adds up the three totals. Opening and a count set them to 0, a step keeps their sum below this, and no other call touches them.
    ghost told_fits: { told engine.processor.books.totals < 2 ^ 62 },
}
