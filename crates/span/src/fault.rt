// What a call is turned down with. A case says which question got a no, with the values
// concerned; its number and its layer can be asked of it.
ghost use Rattle.std.specs.Prelude.{◌≡◌};
ghost use Rattle.span.specs.Faults.{at, number, layer};

// The layer whose question failed.
#[derive(Clone, Copy, PartialEq, Eq, Debug)]
pub enum Layer {
    Span,
    Source,
    Docket,
    Sheet,
}

// The part, row and column that a refusal concerns; a payout or a guess has column 12, figures
// not concerned are 0.
#[derive(Clone, Copy, PartialEq, Eq, Debug, Default)]
pub struct Spot {
    pub part: usize,
    pub row: usize,
    pub column: usize,
}

impl Spot {
    // A row alone.
    pub fn of_row(row: usize) -> Spot
        ensures { result ≡ at 0 row 0 }
    {
        Spot {
            row,
            ..Spot::default()
        }
    }
}

// What was worked out when the result did not fit.
#[derive(Clone, Copy, PartialEq, Eq, Debug)]
pub enum Operation {
    Sum,
    Difference,
    Product,
}

// The span layer's refusals.
#[derive(Clone, Copy, PartialEq, Eq, Debug)]
pub enum Fault {
    // 3: the low end is above the high end
    LowAboveHigh { low: i64, high: i64 },
    // 40: the exact result does not fit signed 64 bits
    TooLarge(Operation),
}

impl Fault {
    pub fn number(&self) -> u8
        ensures { result ≡ number self.now }
    {
        match self {
            Fault::LowAboveHigh { .. } => 3,
            Fault::TooLarge(_) => 40,
        }
    }

    pub fn layer(&self) -> Layer
        ensures { result ≡ layer self.now }
    {
        Layer::Span
    }
}
