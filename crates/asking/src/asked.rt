// What a line asks, with its numbers owned, so that a docket can be lent them.
ghost use Rattle.std.specs.Prelude.{◌≡◌};
ghost use Rattle.asking.specs.Asks.{count_of, asked, asks};

use law::{Ask, Call};
use source::Place;

#[derive(Drop)]
pub enum Asked {
    Open { states: usize, settings: usize },
    Post { place: Place, amount: i32 },
    Range { part: usize, low: i32, high: i32 },
    Propose { table: Vec<i32>, guesses: Vec<i32> },
    Try { numbers: Vec<i32> },
    Run { trials: u8 },
    Narrow,
    Row { row: usize },
    // the rows from 0 on
    Table,
}

impl Asked {
    // How many asks it makes: a table one for each row that a game can have.
    pub fn count(&self) -> usize
        ensures { result ≡ count_of self.now }
    {
        match self {
            Asked::Table => 12,
            _ => 1,
        }
    }

    // Its ask of this number, from 0 on.
    pub fn ask(&self, number: usize) -> Ask<'_>
        ensures { asked result ≡ asks self.now number }
    {
        match self {
            Asked::Open { states, settings } => Ask::Make(Call::Open {
                states: *states,
                settings: *settings,
            }),
            Asked::Post { place, amount } => Ask::Make(Call::Post {
                place: *place,
                amount: *amount,
            }),
            Asked::Range { part, low, high } => Ask::Make(Call::Range {
                part: *part,
                low: *low,
                high: *high,
            }),
            Asked::Propose { table, guesses } => Ask::Make(Call::Propose {
                table: table.as_slice(),
                guesses: guesses.as_slice(),
            }),
            Asked::Try { numbers } => Ask::Make(Call::Try {
                numbers: numbers.as_slice(),
            }),
            Asked::Run { trials } => Ask::Make(Call::Run { trials: *trials }),
            Asked::Narrow => Ask::Make(Call::Narrow),
            Asked::Row { row } => Ask::Row { row: *row },
            Asked::Table => Ask::Row { row: number },
        }
    }
}
