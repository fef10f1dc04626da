// An accepted box with the ranges that it gives.
ghost use Rattle.std.specs.Prelude.{◌*◌, ◌≤◌};
ghost use Rattle.system.specs.Figures.{Narrow};
ghost use Rattle.enclosure.specs.Stepped.{Shrinks};

mod holding;
mod narrowing;

use prepare::Prepared;
use span::Span;

// The box Y that was accepted, and V: its step, narrowed so many times. Both have the rows of the
// largest game, as an enclosure uses no heap.
#[derive(Clone, Copy)]
pub struct Enclosure {
    prepared: Prepared,
    trial: [Span; 12],
    correction: [Span; 12],
    narrowings: u8,
    ghost few: { narrowings ≤ 16 },
    ghost within: { Narrow (100 * prepared.units) correction },
    ghost shrinking: { Shrinks prepared.units prepared.states prepared.residual prepared.iteration correction },
}
