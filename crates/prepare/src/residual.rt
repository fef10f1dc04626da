// The residual Z: what the guesses leave over, through R.
ghost use Rattle.std.specs.Prelude.{◌≡◌, ℕ, ◌<◌, ◌≤◌, Some, Ok, Err};
ghost use Rattle.span.specs.Intervals.{◌+ᵢ◌, ◌*ᵢ◌};
ghost use Rattle.span.specs.Questions.{first_no};
ghost use Rattle.span.specs.Spans.{Fits, ends};
ghost use Rattle.method.specs.Method as method;
ghost use Rattle.system.specs.Figures.{spans};
ghost use Rattle.prepare.specs.Numbers.{offered};
ghost use Rattle.prepare.specs.Partial.{residual_sum};
ghost use Rattle.prepare.specs.Proposals.{game, residual_questions};
ghost use Rattle.prepare.specs.Rows.{Limited};

use crate::fault::Fault;
use crate::proposal::Proposal;
use crate::sums::{dot, one_whole, within, zeros};
use span::{Scale, Span};

impl<T: Scale> Proposal<'_, T> {
    // Z, where all its ends are within 49 wholes.
    pub(crate) fn residual(&self) -> Result<[Span; 12], Fault>
        ensures { elim result [ Ok z ↦ Limited T.Scale.unit 49 self.now.system.now.states (method.residual T.Scale.unit (game self.now.system.now) (offered self.now)) z | Err f ↦ first_no (residual_questions T.Scale.unit (game self.now.system.now) (offered self.now)) ≡ Some f ] }
    {
        let sums = self.row_sums();
        let mut rows = zeros();
        for (row, sum) in sums[..self.system.states()].iter().enumerate() {
            let z = sum.bring_back::<T>();
            if !within(z, 49, self.system.units()) {
                return Err(Fault::ResidualTooLarge { row });
            }
            rows[row] = z;
        }
        Ok(rows)
    }

    // S × z(0)i + Σ(v ≥ 1) pv × z(v)i, row by row.
    fn row_sums(&self) -> [Span; 12]
        ensures { (i : ℕ) → i < self.now.system.now.states → spans result i ≡ residual_sum T.Scale.unit (game self.now.system.now) (offered self.now) i self.now.system.now.settings }
    {
        let mut sums = zeros();
        self.add_part(0, one_whole::<T>(), &mut sums);
        for (v, range) in self.ranges().iter().enumerate() {
            self.add_part(v + 1, *range, &mut sums);
        }
        sums
    }

    // Adds one part's corrections, times its weight, to the sum of each row.
    fn add_part(&self, part: usize, weight: Span, sums: &mut [Span; 12])
        requires one { part ≤ self.now.system.now.settings }
        requires terms { (i : ℕ) → i < self.now.system.now.states → Fits (ends weight *ᵢ method.correction T.Scale.unit (game self.now.system.now) (offered self.now) part i) }
        requires fits { (i : ℕ) → i < self.now.system.now.states → Fits (spans sums.old i +ᵢ ends weight *ᵢ method.correction T.Scale.unit (game self.now.system.now) (offered self.now) part i) }
        ensures { (i : ℕ) → i < self.now.system.now.states → spans sums.new i ≡ spans sums.old i +ᵢ ends weight *ᵢ method.correction T.Scale.unit (game self.now.system.now) (offered self.now) part i }
    {
        let leftovers = self.leftovers(part);
        for (row, sum) in sums[..self.system.states()].iter_mut().enumerate() {
            let term = weight
                .multiply(self.correction(part, &leftovers, row))
                .unwrap();
            *sum = sum.add(term).unwrap();
        }
    }

    // e(v) of one part, row by row.
    fn leftovers(&self, part: usize) -> [Span; 12]
        requires { part ≤ self.now.system.now.settings }
        ensures { (i : ℕ) → i < self.now.system.now.states → spans result i ≡ method.leftover T.Scale.unit (game self.now.system.now) (offered self.now) part i }
    {
        let mut rows = zeros();
        for (row, e) in rows[..self.system.states()].iter_mut().enumerate() {
            *e = self.leftover(part, row);
        }
        rows
    }

    // e(v)i = S × b(v)i − Σj A(v)ij × gj, brought back.
    fn leftover(&self, part: usize, row: usize) -> Span
        requires { (part ≤ self.now.system.now.settings) × (row < self.now.system.now.states) }
        ensures { ends result ≡ method.leftover T.Scale.unit (game self.now.system.now) (offered self.now) part row }
    {
        let guesses = &self.guesses[..self.system.states()];
        let coefficients = &self.system.matrix()[(part * 12 + row) * 12..];
        let payout = i64::from(self.system.payouts()[part * 12 + row]);
        Span::point(T::units() * payout - dot(guesses, coefficients, 1)).bring_back::<T>()
    }

    // z(v)i = Σj Rij × e(v)j, brought back.
    fn correction(&self, part: usize, leftovers: &[Span; 12], row: usize) -> Span
        requires leftovers { (j : ℕ) → j < self.now.system.now.states → spans leftovers.now j ≡ method.leftover T.Scale.unit (game self.now.system.now) (offered self.now) part j }
        requires below { row < self.now.system.now.states }
        ensures { ends result ≡ method.correction T.Scale.unit (game self.now.system.now) (offered self.now) part row }
    {
        let mut sum = Span::default();
        for (r, e) in self.row(row).iter().zip(leftovers) {
            let term = Span::point(i64::from(*r)).multiply(*e).unwrap();
            sum = sum.add(term).unwrap();
        }
        sum.bring_back::<T>()
    }
}
