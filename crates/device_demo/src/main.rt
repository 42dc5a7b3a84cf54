// Shows what a device is: a scanner is lent a few readings, started, and served as a channel would serve it, cycle by cycle.
#![tactic(auto)]

mod absent;

use absent::Absent;
use device::answer::{Asking, DeviceFault};
use device::control::ControlWord;
use device::function::{INITIALIZE_READ, INITIALIZE_WRITE};
use device::interface::{ChannelDevice, Device};
use device::table::TableEnd;
use pair::Pair;
use recorder::Recorder;
use scanner::{Readings, Scanner};
use std::{fmt, io};
use terminal::setup::Setup;

const AREA: u32 = 7;

const OTHER_AREA: u32 = 8;

const GAP: u32 = 3;

const READINGS: [u16; 3] = [1_200, 1_207, 1_193];

const ABSENT: Absent<'static> = Absent {
    name: "the device that refuses everything",
};

// How a device answered a command, as it is printed.
#[derive(Clone, Copy, PartialEq, Eq, Debug)]
struct Answer(Result<(), DeviceFault>);

impl fmt::Display for Answer {
    fn fmt<W: fmt::Write>(&self, f: &mut fmt::Formatter<W>) -> fmt::Result {
        match self.0 {
            Ok(()) => write!(f, "accepted"),
            Err(fault) => write!(f, "{fault}"),
        }
    }
}

// The command that starts a device, in its area.
fn start(area: u32, function: u32) -> ControlWord {
    ControlWord {
        area,
        function,
        modifier: 0,
    }
}

fn print_control(rt: &HostRuntime, scanner: &Scanner<'_>) -> io::Result<()> {
    let [area, gap, operating, wait, line, left] = scanner::control(scanner);
    println!(rt;
        "    area {area} gap {gap} operating {operating} wait {wait} line {line} left {left}"
    )
}

fn print_command(rt: &HostRuntime, scanner: &mut Scanner<'_>, function: u32) -> io::Result<()> {
    let answer = Answer(scanner.command(start(AREA, function)));
    println!(rt; "command, area {AREA}, function {function}: {answer}")?;
    print_control(rt, scanner)
}

// One cycle: a word if the scanner asks to bring one, and then it is told that the cycle has passed.
fn print_cycle(rt: &HostRuntime, scanner: &mut Scanner<'_>, cycle: u32) -> io::Result<()> {
    match scanner.asks() {
        Asking::Bring => {
            let word = scanner.bring();
            println!(rt; "cycle {cycle}: it asks to bring, and brings {word}")?;
        }
        Asking::Take => println!(rt; "cycle {cycle}: it asks to take")?,
        Asking::Nothing => println!(rt; "cycle {cycle}: it asks for nothing")?,
    }
    scanner.passed();
    print_control(rt, scanner)
}

fn print_end(rt: &HostRuntime, scanner: &mut Scanner<'_>) -> io::Result<()> {
    scanner.finish(TableEnd {
        go_on: false,
        tell: true,
    });
    println!(rt; "finish, not going on, telling")?;
    print_control(rt, scanner)?;
    let status = scanner.sense(AREA, 1);
    println!(rt; "sense, area {AREA}, modifier 1: {status:04X}")?;
    print_control(rt, scanner)
}

fn show_scanner(rt: &HostRuntime, setup: &Setup) -> io::Result<()> {
    let mut scanner = Scanner::make(setup, Readings::new(&READINGS));
    println!(rt; "a scanner with three readings, at rest")?;
    print_control(rt, &scanner)?;
    print_command(rt, &mut scanner, INITIALIZE_WRITE)?;
    print_command(rt, &mut scanner, INITIALIZE_READ)?;
    print_command(rt, &mut scanner, INITIALIZE_READ)?;
    for cycle in 1..9 {
        print_cycle(rt, &mut scanner, cycle)?;
    }
    print_end(rt, &mut scanner)
}

// A pair in a pair: a scanner, and behind it a recorder with a device that refuses everything. All three are one device here.
fn show_pair(rt: &HostRuntime, setup: &Setup, other: &Setup) -> io::Result<()> {
    let inner = Pair::make(recorder::make(other), ABSENT);
    let mut pair = Pair::make(Scanner::make(setup, Readings::new(&READINGS)), inner);
    let kind = pair.kind();
    println!(rt;
        "a scanner in area {AREA} paired with a recorder in area {OTHER_AREA}, kind {kind}"
    )?;
    let first = Answer(pair.command(start(OTHER_AREA, INITIALIZE_WRITE)));
    println!(rt; "start of the recorder: {first}")?;
    let second = Answer(pair.command(start(AREA, INITIALIZE_READ)));
    println!(rt; "start of the scanner: {second}")?;
    pair.take(4_660);
    let word = pair.get(AREA);
    println!(rt; "the channel hands over 4660; a get in area {AREA} brings {word}")?;
    let [area, gap, operating, wait, line, count, latest] = recorder::control(
        pair.second().first(),
    );
    println!(rt;
        "    area {area} gap {gap} operating {operating} wait {wait} line {line} count {count} latest {latest}"
    )
}

fn main(rt: HostRuntime) -> io::Result<()> {
    let setup = Setup {
        area: AREA,
        gap: GAP,
    };
    let other = Setup {
        area: OTHER_AREA,
        gap: GAP,
    };
    for checked in [Scanner::check(&setup), Recorder::check(&other)] {
        if let Err(refusal) = checked {
            return println!(rt; "{refusal}");
        }
    }
    show_scanner(&rt, &setup)?;
    show_pair(&rt, &setup, &other)?;
    let mut absent = ABSENT;
    let answer = Answer(absent.command(start(AREA, INITIALIZE_READ)));
    let name = absent.name;
    println!(rt; "a start of {name}: {answer}")
}
