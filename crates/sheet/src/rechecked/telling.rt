// What a rechecked sheet tells.
ghost use Rattle.std.specs.Prelude.{◌≡◌, ◌<◌, ◌≤◌, Ok, Err};
ghost use Rattle.span.specs.Spans.{ends};
ghost use Rattle.system.specs.Figures.{spans};
ghost use Rattle.sheet.specs.declared.fault.Fault.TheVariants.{NoRow};

use super::Rechecked;
use crate::fault::Fault;
use span::Span;

impl Rechecked {
    // The claimed range of a row.
    pub fn row(&self, row: usize) -> Result<Span, Fault>
        ensures { elim result [ Ok s ↦ (row < self.now.states) × (ends s ≡ spans self.now.ranges row) | Err f ↦ (self.now.states ≤ row) × (f ≡ NoRow row) ] }
    {
        if row >= usize::from(self.states) {
            return Err(Fault::NoRow { row });
        }
        Ok(self.ranges[row])
    }
}
