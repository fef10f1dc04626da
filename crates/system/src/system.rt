// The figures of one game, in units of its scale.
ghost use Rattle.std.specs.Prelude.{◌≡◌, ◌*◌, ◌≤◌, length};
ghost use Rattle.system.specs.Figures.{Small, Narrow};

mod posts;

use span::Span;

// n states, k settings, and what was posted: each coefficient within one whole, each payout
// within 100, each setting's range within one. The arrays are of the largest game's size, and longer
// than most games need: a system uses no heap.
#[derive(Clone, Copy)]
pub struct System {
    // S, the units in one whole
    units: u32,
    states: usize,
    settings: usize,
    // at (part * 12 + row) * 12 + column
    matrix: [i32; 1296],
    // at part * 12 + row
    payouts: [i32; 108],
    // by part; part 0 is the fixed one and has none
    ranges: [Span; 9],
    ghost scale: { (2 ≤ units) × (units ≤ 1048576) },
    ghost size: { (1 ≤ states) × (states ≤ 12) × (settings ≤ 8) },
    ghost coefficients: { Small units matrix },
    ghost payments: { Small (100 * units) payouts },
    ghost reach: { Narrow units ranges },
}

impl System {
    // S, the units in one whole.
    pub fn units(&self) -> u32
        ensures { result ≡ self.now.units }
    {
        self.units
    }

    // n.
    pub fn states(&self) -> usize
        ensures { result ≡ self.now.states }
    {
        self.states
    }

    // k.
    pub fn settings(&self) -> usize
        ensures { result ≡ self.now.settings }
    {
        self.settings
    }

    // The coefficients, at (part * 12 + row) * 12 + column.
    pub fn matrix(&self) -> &[i32]
        ensures value { result.now ≡ self.now.matrix }
        ensures long { length result.now ≡ 1296 }
    {
        &self.matrix
    }

    // The payouts, at part * 12 + row.
    pub fn payouts(&self) -> &[i32]
        ensures value { result.now ≡ self.now.payouts }
        ensures long { length result.now ≡ 108 }
    {
        &self.payouts
    }

    // The settings' ranges, by part.
    pub fn ranges(&self) -> &[Span]
        ensures value { result.now ≡ self.now.ranges }
        ensures long { length result.now ≡ 9 }
    {
        &self.ranges
    }
}
