// Reading R by its rows, and the system's settings.
ghost use Rattle.std.specs.Prelude.{◌≡◌, ℕ, suc, ◌<◌, length, pos, slice_index_or};
ghost use Rattle.system.specs.Figures.{spans};
ghost use Rattle.prepare.specs.Numbers.{offered};

use super::Proposal;
use span::{Scale, Span};

impl<T: Scale> Proposal<'_, T> {
    // A row of R.
    pub(crate) fn row(&self, row: usize) -> &[i32]
        requires { row < self.now.system.now.states }
        ensures long { length result.now ≡ self.now.system.now.states }
        ensures numbers { (j : ℕ) → j < self.now.system.now.states → slice_index_or result.now j (pos 0) ≡ (offered self.now).table row j }
    {
        let n = self.system.states();
        &self.table[row * n..row * n + n]
    }

    // The settings' ranges, in order.
    pub(crate) fn ranges(&self) -> &[Span]
        ensures long { length result.now ≡ self.now.system.now.settings }
        ensures ranges { (v : ℕ) → v < self.now.system.now.settings → spans result.now v ≡ spans self.now.system.now.ranges (suc v) }
    {
        &self.system.ranges()[1..self.system.settings() + 1]
    }
}
