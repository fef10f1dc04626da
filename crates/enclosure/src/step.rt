// The step of a box: V = Z + C Y, brought back. A trial steps from its box and a narrowing from what
// is held, so no one type has the premises, and each function here asks for them.
ghost use Rattle.std.specs.Prelude.{◌≡◌, ◌*◌, ◌<◌};
ghost use Rattle.span.specs.Spans.{ends};
ghost use Rattle.system.specs.Figures.{spans};
ghost use Rattle.enclosure.specs.Boxed.{Holds, Reaches, next, product_sum};

use prepare::Prepared;
use span::{Scale, Span};

// Vi for each row, 0 past the last.
pub(crate) fn step<T: Scale>(prepared: &Prepared, y: &[Span; 12]) -> [Span; 12]
    requires scale { T.Scale.unit ≡ prepared.now.units }
    requires near { Reaches prepared.now.states (100 * prepared.now.units) y.now }
    ensures { Holds prepared.now.states result (next prepared.now (spans y.now)) }
{
    let mut v = [Span::default(); 12];
    for (row, s) in v[..prepared.states()].iter_mut().enumerate() {
        *s = step_row::<T>(prepared, y, row);
    }
    v
}

// Vi = S × Zi + Σj Cij × Yj, brought back.
fn step_row<T: Scale>(prepared: &Prepared, y: &[Span; 12], row: usize) -> Span
    requires scale { T.Scale.unit ≡ prepared.now.units }
    requires near { Reaches prepared.now.states (100 * prepared.now.units) y.now }
    requires below { row < prepared.now.states }
    ensures { ends result ≡ next prepared.now (spans y.now) row }
{
    let residual = prepared.residual()[row];
    let fixed = Span::point(T::units()).multiply(residual).unwrap();
    let whole = fixed.add(products(prepared, y, row)).unwrap();
    whole.bring_back::<T>()
}

// Σj Cij × Yj, each Cij by its index, as C stands by rows of n.
fn products(prepared: &Prepared, y: &[Span; 12], row: usize) -> Span
    requires near { Reaches prepared.now.states (100 * prepared.now.units) y.now }
    requires below { row < prepared.now.states }
    ensures { ends result ≡ product_sum prepared.now (spans y.now) row prepared.now.states }
{
    let n = prepared.states();
    let mut sum = Span::default();
    for (j, s) in y[..n].iter().enumerate() {
        let c = prepared.iteration()[row * n + j];
        let term = c.multiply(*s).unwrap();
        sum = sum.add(term).unwrap();
    }
    sum
}
