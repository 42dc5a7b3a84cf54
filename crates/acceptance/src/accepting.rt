// The acceptance call: what it promises is promised of the values that it hands back.
ghost use Rattle.std.specs.Prelude.{◌≡◌, ◌==◌, ◌||◌, false, if◌then◌else◌, length, IfOk, IfErr};
ghost use Rattle.engine.specs.Code.{makes};
ghost use Rattle.controller.specs.Held.{held};
ghost use Rattle.acceptance.specs.Accepted.{IsTheRun, ProtectedWordsStayed, UnreadDidNotMatter, BillAddedUp, opened_with};
ghost use Rattle.refusal.specs.declared.Refusal.TheVariants.{Length};
ghost use Rattle.acceptance.specs.declared.accepting.Why.TheVariants.{Refused, OutOfMemory};

use crate::going::side;
use crate::sides::{Devices, Side};
use controller::call::Entry;
use device::interface::{ChannelDevice, Device};
use engine::state::Wiring;
use refusal::Refusal;

// Why nothing was done.
#[derive(Clone, Copy, PartialEq, Eq, Debug)]
pub enum Why {
    // the spare core is as long as one of the two that are opened: 1
    Refused(Refusal),
    OutOfMemory,
}

// With the devices, which come back as they were.
#[derive(Drop)]
pub struct Unaccepted<A: ChannelDevice, B: ChannelDevice, C: ChannelDevice, D: Device> {
    pub why: Why,
    pub first: Devices<A, B, C, D>,
    pub second: Devices<A, B, C, D>,
}

// Opens two controllers with one wiring, each over its own devices and core, and goes down one list with both: first with the one, then with the
// other. An entry that is lent another core gets the spare one. Memory for all answers is taken before anything else is done.
pub fn accept<A: ChannelDevice, B: ChannelDevice, C: ChannelDevice, D: Device, R: Alloc>(
    rt: &R,
    wiring: Wiring,
    first: Devices<A, B, C, D>,
    second: Devices<A, B, C, D>,
    first_core: &mut [u32],
    second_core: &mut [u32],
    spare: &mut [u32],
    entries: &[Entry],
) -> Result<(Side<A, B, C, D, R::A>, Side<A, B, C, D, R::A>), Unaccepted<A, B, C, D>>
    ensures first_run { IfOk result (λ r. IsTheRun (makes A.Device B.Device C.Device D.Device) entries.now (opened_with A.Device B.Device C.Device D.Device first_core.old wiring first) r.0.answers.items (held A.Device B.Device C.Device D.Device r.0.controller first_core.new)) }
    ensures second_run { IfOk result (λ r. IsTheRun (makes A.Device B.Device C.Device D.Device) entries.now (opened_with A.Device B.Device C.Device D.Device second_core.old wiring second) r.1.answers.items (held A.Device B.Device C.Device D.Device r.1.controller second_core.new)) }
    ensures first_words_stay { IfOk result (λ r. ProtectedWordsStayed (makes A.Device B.Device C.Device D.Device) entries.now (opened_with A.Device B.Device C.Device D.Device first_core.old wiring first) (held A.Device B.Device C.Device D.Device r.0.controller first_core.new)) }
    ensures second_words_stay { IfOk result (λ r. ProtectedWordsStayed (makes A.Device B.Device C.Device D.Device) entries.now (opened_with A.Device B.Device C.Device D.Device second_core.old wiring second) (held A.Device B.Device C.Device D.Device r.1.controller second_core.new)) }
    ensures unread_do_not_matter { IfOk result (λ r. UnreadDidNotMatter (makes A.Device B.Device C.Device D.Device) entries.now (opened_with A.Device B.Device C.Device D.Device first_core.old wiring first) (opened_with A.Device B.Device C.Device D.Device second_core.old wiring second) r.0.answers.items r.1.answers.items (held A.Device B.Device C.Device D.Device r.0.controller first_core.new) (held A.Device B.Device C.Device D.Device r.1.controller second_core.new)) }
    ensures first_bill_adds_up { IfOk result (λ r. BillAddedUp (makes A.Device B.Device C.Device D.Device) entries.now (opened_with A.Device B.Device C.Device D.Device first_core.old wiring first) (held A.Device B.Device C.Device D.Device r.0.controller first_core.new)) }
    ensures second_bill_adds_up { IfOk result (λ r. BillAddedUp (makes A.Device B.Device C.Device D.Device) entries.now (opened_with A.Device B.Device C.Device D.Device second_core.old wiring second) (held A.Device B.Device C.Device D.Device r.1.controller second_core.new)) }
    ensures spare { spare.new ≡ spare.old }
    ensures first_core { IfErr result (λ e. first_core.new ≡ first_core.old) }
    ensures second_core { IfErr result (λ e. second_core.new ≡ second_core.old) }
    ensures first_devices { IfErr result (λ e. e.first ≡ first) }
    ensures second_devices { IfErr result (λ e. e.second ≡ second) }
    ensures refused { IfErr result (λ e. e.why ≡ (if length spare.old == length first_core.old || length spare.old == length second_core.old then Refused Length else OutOfMemory)) }
    ensures accepted { IfOk result (λ r. (length spare.old == length first_core.old || length spare.old == length second_core.old) ≡ false) }
{
    if spare.len() == first_core.len() || spare.len() == second_core.len() {
        let why = Why::Refused(Refusal::Length);
        return Err(Unaccepted { why, first, second });
    }
    let why = Why::OutOfMemory;
    let Ok(first_room) = Vec::with_capacity(rt.alloc(), entries.len()) else {
        return Err(Unaccepted { why, first, second });
    };
    let Ok(second_room) = Vec::with_capacity(rt.alloc(), entries.len()) else {
        return Err(Unaccepted { why, first, second });
    };
    let one = side(wiring, first, first_core, spare, entries, first_room);
    let two = side(wiring, second, second_core, spare, entries, second_room);
    Ok((one, two))
}
