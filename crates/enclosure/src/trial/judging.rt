// When a box is accepted, where it fails worst, and the next box.
ghost use Rattle.std.specs.Prelude.{◌≡◌, pred, ◌<◌, ◌&&◌, if◌then◌else◌, int_lt};
ghost use Rattle.method.specs.Trials.{is_inside, grown, worst, low_end, high_end};
ghost use Rattle.system.specs.Figures.{spans};
ghost use Rattle.enclosure.specs.declared.fault.Fault.TheVariants.{NotAccepted};
ghost use Rattle.enclosure.specs.Boxed.{Holds};
ghost use Rattle.enclosure.specs.Ends.{overshot, sided};

use super::Trial;
use crate::boxes::grown_row;
use crate::fault::{End, Fault};
use span::Span;

// An end of a row, and how far V passes Y there.
#[derive(Clone, Copy)]
struct Overshoot {
    row: usize,
    side: End,
    over: i64,
}

impl Trial<'_> {
    // Does V lie strictly inside Y in every row?
    pub(crate) fn is_accepted(&self) -> bool
        ensures { result ≡ is_inside self.now.prepared.now.states (spans self.now.y) (spans self.now.v) }
    {
        let n = self.prepared.states();
        for (y, v) in self.y[..n].iter().zip(&self.v[..n]) {
            if !row_inside(*y, *v) {
                return false;
            }
        }
        true
    }

    // The end with the greatest overshoot; ties go to the lower row, then to the low end. The
    // first row begins it, so that the others are counted from 1.
    pub(crate) fn worst(&self) -> Fault
        ensures { result ≡ NotAccepted (worst (spans self.now.y) (spans self.now.v) (pred self.now.prepared.now.states)).row (sided (worst (spans self.now.y) (spans self.now.v) (pred self.now.prepared.now.states)).side) }
    {
        let mut worst = worse(self.low_end(0), self.high_end(0));
        for row in 1..self.prepared.states() {
            worst = worse(worse(worst, self.low_end(row)), self.high_end(row));
        }
        Fault::NotAccepted {
            row: worst.row,
            end: worst.side,
        }
    }

    // The next box: each row of V grown.
    pub(crate) fn grown(&self) -> [Span; 12]
        ensures { Holds self.now.prepared.now.states result (λ i. grown (spans self.now.v i)) }
    {
        let mut rows = [Span::default(); 12];
        for (row, v) in self.v[..self.prepared.states()].iter().enumerate() {
            rows[row] = grown_row(*v);
        }
        rows
    }

    fn low_end(&self, row: usize) -> Overshoot
        requires { row < self.now.prepared.now.states }
        ensures { result ≡ overshot (low_end (spans self.now.y) (spans self.now.v) row) }
    {
        let (y, v) = (self.y[row], self.v[row]);
        Overshoot {
            row,
            side: End::Low,
            over: y.low() - v.low(),
        }
    }

    fn high_end(&self, row: usize) -> Overshoot
        requires { row < self.now.prepared.now.states }
        ensures { result ≡ overshot (high_end (spans self.now.y) (spans self.now.v) row) }
    {
        let (y, v) = (self.y[row], self.v[row]);
        Overshoot {
            row,
            side: End::High,
            over: v.high() - y.high(),
        }
    }
}

fn row_inside(y: Span, v: Span) -> bool
    ensures { result ≡ (int_lt y.low v.low && int_lt v.high y.high) }
{
    y.low() < v.low() && v.high() < y.high()
}

// The first, unless the second overshoots by more.
fn worse(a: Overshoot, b: Overshoot) -> Overshoot
    ensures { result ≡ (if int_lt a.over b.over then b else a) }
{
    if a.over < b.over { b } else { a }
}
