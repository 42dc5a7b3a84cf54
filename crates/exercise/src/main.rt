// A deck that scans, adds up and records, with interrupts by lines and a point, and with checks. It prints a line for each step and for what
// the host does between steps, and at the end what came of it.
#![tactic(auto)]

mod deck;
mod host;
mod line;
mod machine;

use deck::SHOWN;
use line::Line;
use machine::{Exercised, load, machine};
use recorder::Recorder;
use refusal::Refusal;
use std::io;
use storage::word::{data_of, word_of};
use works::panel::Counts;

// To the last WAIT, and two idle steps.
const STEPS: u32 = 89;

// All the steps, or those up to a refusal.
fn go(
    rt: &HostRuntime,
    engine: &mut Exercised,
    core: &mut [u32],
) -> io::Result<Result<(), Refusal>> {
    for step in 1..=STEPS {
        host::before(rt, engine, step)?;
        let report = match engine.step(core) {
            Ok(report) => report,
            Err(refusal) => return Ok(Err(refusal)),
        };
        let line = Line {
            step,
            registers: engine.processor.works.registers,
            report,
        };
        println!(rt; "{line}")?;
    }
    Ok(Ok(()))
}

fn print_recorder(rt: &HostRuntime, recorder: &Recorder) -> io::Result<()> {
    let [area, _, _, _, _, count, latest] = recorder::control(recorder);
    println!(rt; "recorder in area {area}: count {count} latest {latest:04X}")
}

// The data of some words of core.
fn print_words(rt: &HostRuntime, core: &[u32], address: usize, words: usize) -> io::Result<()> {
    print!(rt; "core {address:04X}:")?;
    for word in core.iter().skip(address).take(words) {
        print!(rt; " {:04X}", data_of(*word))?;
    }
    println!(rt)
}

fn print_end(rt: &HostRuntime, engine: &Exercised, core: &[u32]) -> io::Result<()> {
    print_recorder(rt, &engine.second)?;
    print_recorder(rt, &engine.fourth)?;
    for (address, words) in SHOWN {
        print_words(rt, core, address, words)?;
    }
    let Counts {
        program,
        stolen,
        idle,
    } = engine.processor.books.totals;
    println!(rt; "program {program} stolen {stolen} idle {idle}")
}

// A refusal is printed where the next step would be, and is no failure of the program.
fn main(rt: HostRuntime) -> anyhow::Result<()> {
    let mut core = vec![in rt.alloc(); word_of(0, false); 4096]?;
    load(&mut core);
    let mut engine = machine();
    match go(&rt, &mut engine, &mut core)? {
        Ok(()) => print_end(&rt, &engine, &core)?,
        Err(refusal) => println!(rt; "{refusal}")?,
    }
    Ok(())
}
