// The source that keeps an entry for each place that something was posted to.
ghost use Rattle.std.specs.Prelude.{◌≡◌, length};
ghost use Rattle.source.specs.contracts.list.kept.ListSource.TheImpl.{ghosts as list};
ghost use Rattle.source.specs.Lists.{list_opened};

mod kept;

use crate::entry::{Entry, MatrixPlace, PayoutPlace};
use crate::tally::Tally;

// It holds as many places of each kind as there are entries, and none always.
#[derive(Drop)]
pub struct List<'a> {
    matrix: Tally<'a, MatrixPlace>,
    payouts: Tally<'a, PayoutPlace>,
}

impl<'a> List<'a> {
    // An empty list over the two slices.
    pub fn new(
        matrix: &'a mut [Entry<MatrixPlace>],
        payouts: &'a mut [Entry<PayoutPlace>],
    ) -> List<'a>
        ensures { (list.meaning result ≡ list_opened (length matrix.old) (length payouts.old)) × list.sound result }
    {
        List {
            matrix: Tally::new(matrix),
            payouts: Tally::new(payouts),
        }
    }
}
