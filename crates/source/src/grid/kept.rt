// A grid as a source.
ghost use Rattle.source.specs.Grids.{grid_means};

use super::{Grid, ask_run, post_run};
use crate::fault::Fault;
use crate::place::Place;
use crate::source::Source;

impl Source for Grid<'_> {
    ghost meaning = { λ g. grid_means g.matrix.now g.payouts.now };

    ghost sound = { λ _. Unit {0} };

    fn empty(&mut self) {
        self.matrix.fill(0);
        self.payouts.fill(0);
    }

    fn post(&mut self, place: Place, amount: i32) -> Result<(), Fault> {
        match place {
            Place::Matrix { .. } => post_run(self.matrix, place, amount),
            Place::Payout { .. } => post_run(self.payouts, place, amount),
        }
    }

    fn ask(&self, place: Place) -> Option<i32> {
        match place {
            Place::Matrix { .. } => ask_run(self.matrix, place),
            Place::Payout { .. } => ask_run(self.payouts, place),
        }
    }
}
