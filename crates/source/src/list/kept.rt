// A list as a source.
ghost use Rattle.source.specs.Lists.{list_means, ListSound};

use super::List;
use crate::entry::{MatrixPlace, PayoutPlace};
use crate::fault::Fault;
use crate::place::Place;
use crate::source::Source;

impl Source for List<'_> {
    ghost meaning = { λ l. list_means l.matrix.entries.now l.matrix.used l.payouts.entries.now l.payouts.used };

    ghost sound = { λ l. ListSound l.matrix.entries.now l.matrix.used l.payouts.entries.now l.payouts.used };

    fn empty(&mut self) {
        self.matrix.clear();
        self.payouts.clear();
    }

    fn post(&mut self, place: Place, amount: i32) -> Result<(), Fault> {
        if !place.in_range() {
            return Err(Fault::OutOfRange(place));
        }
        let added = match place {
            Place::Matrix { part, row, column } => {
                self.matrix.add(MatrixPlace { part, row, column }, amount)
            }
            Place::Payout { part, row } => self.payouts.add(PayoutPlace { part, row }, amount),
        };
        added.map_err(|refusal| refusal.at(place))
    }

    fn ask(&self, place: Place) -> Option<i32> {
        match place {
            Place::Matrix { part, row, column } => {
                self.matrix.sum(&MatrixPlace { part, row, column })
            }
            Place::Payout { part, row } => self.payouts.sum(&PayoutPlace { part, row }),
        }
    }
}
