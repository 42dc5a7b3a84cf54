// Runs an image: reads 4,096 records from standard input, starts at 0, and prints a line for each step.
#![tactic(auto)]

use refusal::Refusal;
use rig::line::StepLine;
use rig::{Rig, started};
use std::io::Read;
use storage::image::decode;
use works::panel::RunState;

const STEPS: u32 = 1_000;

// Steps until it waits, or so many times. A refusal is an answer that is printed, and no failure of the program, so it stands apart from the system's
// errors: one type of both would want a `From` for each of those.
fn go(rt: &HostRuntime, rig: &mut Rig, core: &mut [u32]) -> anyhow::Result<Result<(), Refusal>> {
    for step in 1..=STEPS {
        let report = match rig.step(core) {
            Ok(report) => report,
            Err(refusal) => return Ok(Err(refusal)),
        };
        println!(rt; "{}", StepLine::of(step, &rig.registers(), &report))?;
        if report.run == RunState::Waiting {
            break;
        }
    }
    Ok(Ok(()))
}

// What it is about to run, or why that is refused.
fn ready(image: &[u8], core: &mut [u32]) -> Result<Rig, Refusal> {
    decode(image, core)?;
    started(core)
}

fn run(rt: &HostRuntime) -> anyhow::Result<Result<(), Refusal>> {
    let heap = rt.alloc();
    let mut image = Vec::new(heap);
    rt.stdin().read_to_end(&mut image)?;
    let mut core = vec![in heap; 0u32; 4096]?;
    match ready(&image, &mut core) {
        Ok(mut rig) => go(rt, &mut rig, &mut core),
        Err(refusal) => Ok(Err(refusal)),
    }
}

// A refusal is printed where the steps would be, and is no failure of the program.
fn main(rt: HostRuntime) -> anyhow::Result<()> {
    if let Err(refusal) = run(&rt)? {
        println!(rt; "{refusal}")?;
    }
    Ok(())
}
