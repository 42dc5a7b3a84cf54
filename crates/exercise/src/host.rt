// What the host does between two steps.
use crate::machine::Exercised;
use std::{fmt, io};
use works::panel::RunState;

#[derive(Clone, Copy, PartialEq, Eq, Debug)]
pub enum Order {
    Point { level: usize, bit: u32 },
    CheckStop,
    Start,
}

// Each order, and the step that it comes before.
const ORDERS: [(u32, Order); 6] = [
    // while level 0 is served
    (12, Order::Point { level: 2, bit: 0 }),
    // at a level that stays masked
    (30, Order::Point { level: 5, bit: 0 }),
    // while the program waits
    (62, Order::CheckStop),
    (62, Order::Point { level: 2, bit: 0 }),
    // after a step that found it stopped, twice
    (68, Order::Start),
    (77, Order::Start),
];

impl Order {
    fn carry_out(self, engine: &mut Exercised) {
        match self {
            Order::Point { level, bit } => engine.processor.points.latch(level, bit),
            Order::CheckStop => engine.processor.books.switches.check_stop = true,
            Order::Start => engine.processor.works.run = RunState::Running,
        }
    }
}

impl fmt::Display for Order {
    fn fmt<W: fmt::Write>(&self, f: &mut fmt::Formatter<W>) -> fmt::Result {
        match self {
            Order::Point { level, bit } => write!(f, "point {level} {bit}"),
            Order::CheckStop => write!(f, "Check Stop on"),
            Order::Start => write!(f, "start"),
        }
    }
}

// Carries out, and prints, what comes before a step.
pub(crate) fn before(rt: &HostRuntime, engine: &mut Exercised, step: u32) -> io::Result<()> {
    for (when, order) in ORDERS {
        if when == step {
            order.carry_out(engine);
            println!(rt; "host: {order}")?;
        }
    }
    Ok(())
}
