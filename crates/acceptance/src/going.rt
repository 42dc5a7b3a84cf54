// Going down a list of calls with one controller.
ghost use Rattle.std.specs.Prelude.{◌≡◌, ◌≢◌, false, ◌+◌, ◌≤◌, [], ◌++◌, length, vec_len, vec_capacity};
ghost use Rattle.engine.specs.Code.{makes};
ghost use Rattle.engine.specs.Step.{lent_right};
ghost use Rattle.controller.specs.Held.{held};
ghost use Rattle.controller.specs.Run.{enter as the_enter, run, after, answers_of};
ghost use Rattle.acceptance.specs.Accepted.{IsTheRun, opened_with};

use crate::sides::{Devices, Side};
use controller::call::{Answer, Entry, Lent};
use controller::controller::Controller;
use device::interface::{ChannelDevice, Device};
use engine::state::Wiring;
use std::alloc::Allocator;

// Makes the call of one entry, with the core that the entry is lent.
fn enter<A: ChannelDevice, B: ChannelDevice, C: ChannelDevice, D: Device>(
    controller: &mut Controller<A, B, C, D>,
    core: &mut [u32],
    spare: &mut [u32],
    entry: &Entry,
) -> Answer
    requires spare { lent_right (held A.Device B.Device C.Device D.Device controller.old spare.old) ≡ false }
    ensures answer { result ≡ (the_enter (makes A.Device B.Device C.Device D.Device) entry.now (held A.Device B.Device C.Device D.Device controller.old core.old)).answer }
    ensures machine { held A.Device B.Device C.Device D.Device controller.new core.new ≡ (the_enter (makes A.Device B.Device C.Device D.Device) entry.now (held A.Device B.Device C.Device D.Device controller.old core.old)).machine }
    ensures spare { spare.new ≡ spare.old }
{
    match entry.lent {
        Lent::Opened => controller.make_call(core, entry.call),
        Lent::Other => controller.make_call(spare, entry.call),
    }
}

// Goes down the list, entry by entry. There is room for the answers.
pub(crate) fn go_down<
    A: ChannelDevice,
    B: ChannelDevice,
    C: ChannelDevice,
    D: Device,
    L: Allocator,
>(
    controller: &mut Controller<A, B, C, D>,
    core: &mut [u32],
    spare: &mut [u32],
    entries: &[Entry],
    answers: &mut Vec<Answer, L>,
)
    requires spare { lent_right (held A.Device B.Device C.Device D.Device controller.old spare.old) ≡ false }
    requires room { vec_len answers.old + length entries.now ≤ vec_capacity answers.old }
    ensures answers { answers.new.items ≡ answers.old.items ++ answers_of (run (makes A.Device B.Device C.Device D.Device) entries.now (held A.Device B.Device C.Device D.Device controller.old core.old)) }
    ensures machine { held A.Device B.Device C.Device D.Device controller.new core.new ≡ after (makes A.Device B.Device C.Device D.Device) entries.now (held A.Device B.Device C.Device D.Device controller.old core.old) }
    ensures spare { spare.new ≡ spare.old }
{
    let mut rest = entries;
    while let Some((entry, more)) = rest.split_first() {
        let answer = enter(controller, core, spare, entry);
        answers.push_reserved(answer);
        rest = more;
    }
}

// Opens a controller over a core and four devices, and goes down the list with it. The spare core is of another length, and there is room for the
// answers.
pub(crate) fn side<A: ChannelDevice, B: ChannelDevice, C: ChannelDevice, D: Device, L: Allocator>(
    wiring: Wiring,
    devices: Devices<A, B, C, D>,
    core: &mut [u32],
    spare: &mut [u32],
    entries: &[Entry],
    room: Vec<Answer, L>,
) -> Side<A, B, C, D, L>
    requires another { length spare.old ≢ length core.old }
    requires none { room.items ≡ [] }
    requires room { vec_len room + length entries.now ≤ vec_capacity room }
    ensures run { IsTheRun (makes A.Device B.Device C.Device D.Device) entries.now (opened_with A.Device B.Device C.Device D.Device core.old wiring devices) result.answers.items (held A.Device B.Device C.Device D.Device result.controller core.new) }
    ensures spare { spare.new ≡ spare.old }
{
    let Devices {
        first,
        second,
        third,
        fourth,
    } = devices;
    let mut controller = Controller::make(core, wiring, first, second, third, fourth);
    let mut answers = room;
    go_down(&mut controller, core, spare, entries, &mut answers);
    Side {
        controller,
        answers,
    }
}
