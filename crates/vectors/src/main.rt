// Runs the images in the folder that it is run in, which are those of data/, and compares the line of each step with the one that is
// expected of it. Images and lines come from another implementation of the same rules.
#![tactic(auto)]

use rig::line::StepLine;
use rig::started;
use std::fs;
use storage::image::decode;

const RUNS: u32 = 8;

// As many as a run makes at most.
const STEPS: u32 = 1_000;

// Goes on as long as lines are expected, or until one is another.
fn compare(rt: &HostRuntime, run: u32) -> anyhow::Result<()> {
    let heap = rt.alloc();
    let image = fs::read(rt, format!(in heap; "runner-{run}.image")?)?;
    let expected = fs::read_to_string(rt, format!(in heap; "runner-{run}.lines")?)?;
    let mut core = vec![in heap; 0u32; 4096]?;
    decode(&image, &mut core)?;
    let mut rig = started(&core)?;
    let mut agreed = 0;
    for (step, wanted) in (1..=STEPS).zip(expected.lines()) {
        let report = rig.step(&mut core)?;
        let line = StepLine::of(step, &rig.registers(), &report);
        let found = format!(in heap; "{line}")?;
        if found.as_str() != wanted {
            println!(rt; "run {run}: step {step} gave {found}, and {wanted} is expected")?;
            return Ok(());
        }
        agreed = step;
    }
    println!(rt; "run {run}: {agreed} steps as expected")?;
    Ok(())
}

fn main(rt: HostRuntime) -> anyhow::Result<()> {
    for run in 1..=RUNS {
        compare(&rt, run)?;
    }
    Ok(())
}
