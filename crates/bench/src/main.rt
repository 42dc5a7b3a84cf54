// Runs a fixed loop of four instructions (load, add, store, and back) for as many steps as its argument says, and prints steps and cycles. It is
// for timing the step; the gate runs it for a few steps only.
#![tactic(auto)]

use rig::{Rig, started};
use std::env;
use storage::word::word_of;
use works::panel::Counts;

// LD word 5, A word 6, STO word 5, MDX back to word 0; words 5 and 6.
const DECK: [u16; 7] = [0xC004, 0x8004, 0xD002, 0x70FC, 0, 0, 1];

// How many steps were not refused.
fn go(rig: &mut Rig, core: &mut [u32], steps: u64) -> u64 {
    for step in 0..steps {
        if rig.step(core).is_err() {
            return step;
        }
    }
    steps
}

fn run(rt: &HostRuntime) -> anyhow::Result<()> {
    let mut steps = 1_000;
    for text in env::args(rt)?.skip(1) {
        steps = text.parse::<u64>()?;
    }
    let mut core = vec![in rt.alloc(); word_of(0, false); 4096]?;
    for (word, data) in core.iter_mut().zip(DECK) {
        *word = word_of(data, false);
    }
    match started(&core) {
        Ok(mut rig) => {
            let done = go(&mut rig, &mut core, steps);
            let Counts {
                program,
                stolen,
                idle,
            } = rig.totals();
            println!(rt; "steps {done} program {program} stolen {stolen} idle {idle}")?;
        }
        Err(refusal) => println!(rt; "{refusal}")?,
    }
    Ok(())
}

fn main(rt: HostRuntime) -> anyhow::Result<()> {
    run(&rt)
}
