// A box that is tried: its step, whether it is accepted, and where it fails worst.
ghost use Rattle.std.specs.Prelude.{◌≡◌, ◌*◌, Some, None, MatchResult, IfOk};
ghost use Rattle.system.specs.Figures.{spans};
ghost use Rattle.span.specs.Questions.{first_no};
ghost use Rattle.enclosure.specs.Boxed.{Holds, Reaches, next, reach_questions};

mod judging;

use crate::boxes::limited;
use crate::fault::Fault;
use crate::step::step;
use prepare::Prepared;
use span::{Scale, Span};

// The box Y, its ends all within 100 wholes, and its step V; 0 past the last row, in arrays of the
// largest game's size, since a trial uses no heap.
#[derive(Drop)]
pub(crate) struct Trial<'a> {
    pub(crate) prepared: &'a Prepared,
    pub(crate) y: [Span; 12],
    pub(crate) v: [Span; 12],
    ghost near: { Reaches prepared.now.states (100 * prepared.now.units) y },
    ghost stepped: { Holds prepared.now.states v (next prepared.now (spans y)) },
}

impl<'a> Trial<'a> {
    // Are all ends within 100 wholes?
    pub(crate) fn new<T: Scale>(prepared: &'a Prepared, y: [Span; 12]) -> Result<Trial<'a>, Fault>
        requires { T.Scale.unit ≡ prepared.now.units }
        ensures answer { MatchResult result (λ t. first_no (reach_questions T.Scale.unit prepared.now.states (spans y)) ≡ None) (λ f. first_no (reach_questions T.Scale.unit prepared.now.states (spans y)) ≡ Some f) }
        ensures kept { IfOk result (λ t. (t.prepared.now ≡ prepared.now) × (t.y ≡ y)) }
    {
        limited::<T>(&y[..prepared.states()])?;
        let v = step::<T>(prepared, &y);
        Ok(Trial { prepared, y, v })
    }
}
