// The iteration matrix C: how far R is from inverting the matrix.
ghost use Rattle.std.specs.Prelude.{◌≡◌, ◌*◌, ◌/◌, ◌%◌, ◌<◌, ◌≤◌, pos, if◌then◌else◌, Some, Ok, Err, nat_eq};
ghost use Rattle.span.specs.Intervals.{point};
ghost use Rattle.span.specs.Questions.{first_no};
ghost use Rattle.span.specs.Spans.{ends};
ghost use Rattle.method.specs.Method as method;
ghost use Rattle.prepare.specs.Numbers.{offered};
ghost use Rattle.prepare.specs.Proposals.{game, iteration_questions};
ghost use Rattle.prepare.specs.Rows.{Limited};

use crate::fault::Fault;
use crate::proposal::Proposal;
use crate::sums::{dot, one_whole, within, zeros};
use span::{Scale, Span};

impl<T: Scale> Proposal<'_, T> {
    // C by rows of n, where all its ends are within one whole.
    pub(crate) fn iteration(&self) -> Result<[Span; 144], Fault>
        ensures { elim result [ Ok z ↦ Limited T.Scale.unit 1 (self.now.system.now.states * self.now.system.now.states) (λ t. method.iteration T.Scale.unit (game self.now.system.now) (offered self.now) (t / self.now.system.now.states) (t % self.now.system.now.states)) z | Err f ↦ first_no (iteration_questions T.Scale.unit (game self.now.system.now) (offered self.now)) ≡ Some f ] }
    {
        let n = self.system.states();
        let mut cells = zeros();
        for (t, c) in cells[..n * n].iter_mut().enumerate() {
            let (row, column) = (t / n, t % n);
            *c = self.cell(row, column);
            if !within(*c, 1, self.system.units()) {
                return Err(Fault::IterationTooLarge { row, column });
            }
        }
        Ok(cells)
    }

    // Cij = (S × S if i = j, else 0) − S × M(0)ij − Σ(v ≥ 1) pv × M(v)ij, brought back.
    fn cell(&self, row: usize, column: usize) -> Span
        requires { (row < self.now.system.now.states) × (column < self.now.system.now.states) }
        ensures { ends result ≡ method.iteration T.Scale.unit (game self.now.system.now) (offered self.now) row column }
    {
        let fixed = one_whole::<T>()
            .multiply(self.product(0, row, column))
            .unwrap();
        let mut sum = whole::<T>(row, column).subtract(fixed).unwrap();
        for (v, range) in self.ranges().iter().enumerate() {
            let term = range.multiply(self.product(v + 1, row, column)).unwrap();
            sum = sum.subtract(term).unwrap();
        }
        sum.bring_back::<T>()
    }

    // M(v)ij = Σl Ril × A(v)lj, brought back.
    fn product(&self, part: usize, row: usize, column: usize) -> Span
        requires { (part ≤ self.now.system.now.settings) × (row < self.now.system.now.states) × (column < self.now.system.now.states) }
        ensures { ends result ≡ method.product T.Scale.unit (game self.now.system.now) (offered self.now) part row column }
    {
        let coefficients = &self.system.matrix()[part * 144 + column..];
        Span::point(dot(self.row(row), coefficients, 12)).bring_back::<T>()
    }
}

// S × S on the diagonal, else 0.
fn whole<T: Scale>(row: usize, column: usize) -> Span
    ensures { ends result ≡ point (if nat_eq row column then pos (T.Scale.unit * T.Scale.unit) else pos 0) }
{
    if row != column {
        return Span::default();
    }
    let s = T::units();
    Span::point(s * s)
}
