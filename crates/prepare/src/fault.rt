// What a proposal is turned down with.
ghost use Rattle.std.specs.Prelude.{◌≡◌};
ghost use Rattle.prepare.specs.Faults.{number, layer, place};

use span::{Layer, Spot};

#[derive(Clone, Copy, PartialEq, Eq, Debug)]
pub enum Fault {
    // 31: the system's S is not the named scale's
    OtherScale { units: u32 },
    // 6: not n × n and n numbers
    Count { table: usize, guesses: usize },
    // 7: a number of R is not within 50 wholes
    TableTooLarge { row: usize, column: usize },
    // 7: a guess is not within 100 wholes
    GuessTooLarge { row: usize },
    // 8: an end of Z is not within 49 wholes
    ResidualTooLarge { row: usize },
    // 9: an end of C is not within one whole
    IterationTooLarge { row: usize, column: usize },
}

impl Fault {
    pub fn number(&self) -> u8
        ensures { result ≡ number self.now }
    {
        match self {
            Fault::OtherScale { .. } => 31,
            Fault::Count { .. } => 6,
            Fault::TableTooLarge { .. } => 7,
            Fault::GuessTooLarge { .. } => 7,
            Fault::ResidualTooLarge { .. } => 8,
            Fault::IterationTooLarge { .. } => 9,
        }
    }

    // The questions are the docket's.
    pub fn layer(&self) -> Layer
        ensures { result ≡ layer self.now }
    {
        Layer::Docket
    }

    // A guess has column 12.
    pub fn place(&self) -> Spot
        ensures { result ≡ place self.now }
    {
        match *self {
            Fault::OtherScale { .. } | Fault::Count { .. } => Spot::default(),
            Fault::TableTooLarge { row, column } | Fault::IterationTooLarge { row, column } =>
                Spot {
                    part: 0,
                    row,
                    column,
                },
            Fault::GuessTooLarge { row } => Spot {
                part: 0,
                row,
                column: 12,
            },
            Fault::ResidualTooLarge { row } => Spot::of_row(row),
        }
    }
}
