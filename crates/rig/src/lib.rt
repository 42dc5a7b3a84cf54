// What the programs run on: a controller over three scanners without words and a recorder.
#![tactic(auto)]

ghost use Rattle.std.specs.Prelude.{◌≡◌, length, Ok, Err, IfOk, IfErr};
ghost use Rattle.controller.specs.Opening.{opening};
ghost use Rattle.controller.specs.Held.{held};
ghost use Rattle.engine.specs.Code.{dev};
ghost use Rattle.rig.specs.Rigs.{row, setup_in as the_setup, scanner_in, recorder_in, opened_rig, started_rig};

use controller::controller::Controller;
use controller::opening::check_opening;
use device::interface::Device;
use engine::state::{Wire, Wiring};
use recorder::Recorder;
use refusal::Refusal;
use scanner::{Readings, Scanner};
use terminal::setup::Setup;

pub mod line;

pub type Rig = Controller<Scanner<'static>, Scanner<'static>, Scanner<'static>, Recorder>;

fn wiring() -> Wiring
    ensures { result ≡ row }
{
    Wiring {
        first: Wire { level: 0, bit: 0 },
        second: Wire { level: 0, bit: 1 },
        third: Wire { level: 0, bit: 2 },
        fourth: Wire { level: 0, bit: 3 },
    }
}

fn setup_in(area: u32) -> Setup
    ensures { result ≡ the_setup area }
{
    Setup { area, gap: 1 }
}

fn scanner_in(area: u32) -> Scanner<'static>
    ensures { dev ⟦<Scanner<'static> as Device>⟧ result ≡ scanner_in area }
{
    Scanner::make(&setup_in(area), Readings::new(&[]))
}

fn recorder_in(area: u32) -> Recorder
    ensures { dev ⟦<Recorder as Device>⟧ result ≡ recorder_in area }
{
    recorder::make(&setup_in(area))
}

// Opens it over a core, or says why that is refused.
pub fn open(core: &[u32]) -> Result<Rig, Refusal>
    ensures refused { IfErr result (λ e. opening (length core.now) row ≡ Err e) }
    ensures accepted { IfOk result (λ rig. opening (length core.now) row ≡ Ok tt) }
    ensures opened { IfOk result (λ rig. held ⟦<Scanner<'static> as Device>⟧ ⟦<Scanner<'static> as Device>⟧ ⟦<Scanner<'static> as Device>⟧ ⟦<Recorder as Device>⟧ rig core.now ≡ opened_rig core.now) }
{
    let wiring = wiring();
    check_opening(core, &wiring)?;
    Ok(Controller::make(
        core,
        wiring,
        scanner_in(1),
        scanner_in(2),
        scanner_in(3),
        recorder_in(4),
    ))
}

// Opens it over a core and starts it, or says why that is refused.
pub fn started(core: &[u32]) -> Result<Rig, Refusal>
    ensures refused { IfErr result (λ e. opening (length core.now) row ≡ Err e) }
    ensures accepted { IfOk result (λ rig. opening (length core.now) row ≡ Ok tt) }
    ensures started { IfOk result (λ rig. held ⟦<Scanner<'static> as Device>⟧ ⟦<Scanner<'static> as Device>⟧ ⟦<Scanner<'static> as Device>⟧ ⟦<Recorder as Device>⟧ rig core.now ≡ started_rig core.now) }
{
    let mut rig = open(core)?;
    rig.start(core)?;
    Ok(rig)
}
