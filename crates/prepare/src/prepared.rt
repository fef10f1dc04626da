// What is prepared from a system and a proposal that was accepted.
ghost use Rattle.std.specs.Prelude.{◌≡◌, ◌*◌, ◌≤◌, length};
ghost use Rattle.system.specs.Figures.{Small, Narrow};

mod making;

use span::Span;

// R by rows of n, the guesses, the residual Z (ends within 49 wholes) and the iteration matrix C (within one),
// C by rows of n. The arrays are of the largest game's size: what is prepared uses no heap.
#[derive(Clone, Copy)]
pub struct Prepared {
    // S, the units in one whole
    units: u32,
    states: usize,
    table: [i32; 144],
    guesses: [i32; 12],
    residual: [Span; 12],
    iteration: [Span; 144],
    ghost scale: { (2 ≤ units) × (units ≤ 1048576) },
    ghost size: { (1 ≤ states) × (states ≤ 12) },
    ghost guessed: { Small (100 * units) guesses },
    ghost near: { Narrow (49 * units) residual },
    ghost contracting: { Narrow units iteration },
}

impl Prepared {
    // S, the units in one whole.
    pub fn units(&self) -> u32
        ensures { result ≡ self.now.units }
    {
        self.units
    }

    // n.
    pub fn states(&self) -> usize
        ensures { result ≡ self.now.states }
    {
        self.states
    }

    // R, by rows of n.
    pub fn table(&self) -> &[i32]
        ensures value { result.now ≡ self.now.table }
        ensures long { length result.now ≡ 144 }
    {
        &self.table
    }

    pub fn guesses(&self) -> &[i32]
        ensures value { result.now ≡ self.now.guesses }
        ensures long { length result.now ≡ 12 }
    {
        &self.guesses
    }

    // Z, row by row.
    pub fn residual(&self) -> &[Span]
        ensures value { result.now ≡ self.now.residual }
        ensures long { length result.now ≡ 12 }
    {
        &self.residual
    }

    // C, by rows of n.
    pub fn iteration(&self) -> &[Span]
        ensures value { result.now ≡ self.now.iteration }
        ensures long { length result.now ≡ 144 }
    {
        &self.iteration
    }
}
