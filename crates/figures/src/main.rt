// Runs the worked figures of the rules and prints what they come to.
#![tactic(auto)]

mod enclosing;
mod worked;

use enclosing::Single;
use span::Span;
use std::io;

fn main(rt: HostRuntime) -> io::Result<()> {
    spans(&rt)?;
    thirds(&rt)?;
    swings(&rt)?;
    refusals(&rt)
}

fn spans(rt: &HostRuntime) -> io::Result<()> {
    match worked::figures() {
        Ok(figures) => {
            let (minus_one, two, product) = figures;
            told(rt, "-1 brought back by millionths", minus_one)?;
            told(rt, "2000000 brought back by millionths", two)?;
            told(rt, "-2..3 times -5..4", product)
        }
        Err(fault) => println!(rt; "turned down: {fault:?}"),
    }
}

// 300,000 x = 100,000 and its mirror.
fn thirds(rt: &HostRuntime) -> io::Result<()> {
    let third = Single {
        fixed: (300_000, 100_000),
        swing: None,
        table: 3_333_333,
        guess: 333_333,
        trials: 1,
        narrowings: 0,
    };
    game(rt, "a third", third)?;
    let mirror = Single {
        fixed: (300_000, -100_000),
        guess: -333_333,
        ..third
    };
    game(rt, "minus a third", mirror)
}

// (1 - p) x = 500,000 with p from 480,000 to 520,000.
fn swings(rt: &HostRuntime) -> io::Result<()> {
    let swing = Single {
        fixed: (1_000_000, 500_000),
        swing: Some((-1_000_000, 480_000, 520_000)),
        table: 2_000_000,
        guess: 1_000_000,
        trials: 1,
        narrowings: 0,
    };
    game(rt, "a setting that swings", swing)?;
    game(
        rt,
        "the same, narrowed once",
        Single {
            narrowings: 1,
            ..swing
        },
    )
}

// No coefficient is posted, so that any worth solves the equation.
fn refusals(rt: &HostRuntime) -> io::Result<()> {
    let nothing = Single {
        fixed: (0, 0),
        swing: None,
        table: 1_000_000,
        guess: 0,
        trials: 1,
        narrowings: 0,
    };
    game(rt, "nothing posted, a run of 1", nothing)?;
    let large = Single {
        fixed: (0, 49_000_000),
        ..nothing
    };
    game(rt, "a payout of 49 wholes, a run of 1", large)?;
    game(
        rt,
        "a payout of 49 wholes, a run of 2",
        Single { trials: 2, ..large },
    )?;
    game(
        rt,
        "a payout of 50 wholes",
        Single {
            fixed: (0, 50_000_000),
            ..nothing
        },
    )
}

fn game(rt: &HostRuntime, what: &str, single: Single) -> io::Result<()> {
    match enclosing::run(single) {
        Ok(range) => told(rt, what, range),
        Err(refusal) => println!(rt; "{what}: {refusal}"),
    }
}

fn told(rt: &HostRuntime, what: &str, figure: Span) -> io::Result<()> {
    let low = figure.low();
    let high = figure.high();
    println!(rt; "{what}: {low}..{high}")
}
