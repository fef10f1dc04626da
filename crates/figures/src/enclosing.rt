// Games of one state, run from their figures to a range.
ghost use Rattle.figures.specs.Enclosed.{Enclosed};

use enclosure::Enclosure;
use prepare::Prepared;
use span::{Millionths, Span};
use std::fmt;
use system::System;

// A game of one state: its figures, a proposal, the trials allowed and the narrowings wanted.
#[derive(Clone, Copy)]
pub struct Single {
    pub fixed: (i32, i32),
    pub swing: Option<(i32, i32, i32)>,
    pub table: i32,
    pub guess: i32,
    pub trials: u8,
    pub narrowings: u8,
}

// What a game was turned down with, by the step that turned it down.
#[derive(Clone, Copy)]
pub enum Refusal {
    Posting(system::Fault),
    Preparing(prepare::Fault),
    Trying(enclosure::Fault),
}

impl From<system::Fault> for Refusal {
    fn from(fault: system::Fault) -> Refusal {
        Refusal::Posting(fault)
    }
}

impl From<prepare::Fault> for Refusal {
    fn from(fault: prepare::Fault) -> Refusal {
        Refusal::Preparing(fault)
    }
}

impl From<enclosure::Fault> for Refusal {
    fn from(fault: enclosure::Fault) -> Refusal {
        Refusal::Trying(fault)
    }
}

impl fmt::Display for Refusal {
    fn fmt<W: fmt::Write>(&self, f: &mut fmt::Formatter<W>) -> fmt::Result {
        let (number, place) = match self {
            Refusal::Posting(fault) => (fault.number(), fault.place()),
            Refusal::Preparing(fault) => (fault.number(), fault.place()),
            Refusal::Trying(fault) => (fault.number(), fault.place()),
        };
        let row = place.row;
        let part = place.part;
        write!(f, "turned down, {number}, row {row}, part {part}")
    }
}

// The range of the one state.
pub fn run(game: Single) -> Result<Span, Refusal>
    ensures { Enclosed }
{
    let settings = usize::from(game.swing.is_some());
    let mut system = System::new::<Millionths>(1, settings)?;
    post(&mut system, game)?;
    held(&system, game)
}

fn post(system: &mut System, game: Single) -> Result<(), system::Fault> {
    let (coefficient, payout) = game.fixed;
    system.post_matrix(0, 0, 0, coefficient)?;
    system.post_payout(0, 0, payout)?;
    if let Some((coefficient, low, high)) = game.swing {
        system.post_matrix(1, 0, 0, coefficient)?;
        system.set_range(1, low, high)?;
    }
    Ok(())
}

fn held(system: &System, game: Single) -> Result<Span, Refusal> {
    let prepared = Prepared::new::<Millionths>(system, &[game.table], &[game.guess])?;
    let (_, mut enclosure) = Enclosure::run::<Millionths>(&prepared, game.trials)?;
    for _ in 0..game.narrowings {
        enclosure.narrow::<Millionths>()?;
    }
    Ok(enclosure.row(0)?)
}
