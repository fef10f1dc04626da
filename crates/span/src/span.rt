// A span: a range of figures by its two ends.
ghost use Rattle.std.specs.Prelude.{◌≡◌, [], ◌∷◌, ◌≤ℤ◌};

mod operations;

// A low end and a high end, the low never above the high.
#[derive(Clone, Copy, PartialEq, Eq, Debug)]
pub struct Span {
    low: i64,
    high: i64,
    ghost ordered: { low ≤ℤ high },
}

impl Span {
    pub fn low(&self) -> i64
        ensures { result ≡ self.now.low }
    {
        self.low
    }

    pub fn high(&self) -> i64
        ensures { result ≡ self.now.high }
    {
        self.high
    }

    // The low end and the high end.
    pub fn ends(&self) -> [i64; 2]
        ensures { result ≡ self.now.low ∷ self.now.high ∷ [] }
    {
        [self.low, self.high]
    }
}
