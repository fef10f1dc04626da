// Where a docket keeps its coefficients: which source, and how much room it has.
ghost use Rattle.std.specs.Prelude.{◌≡◌, ◌≤◌, IfOk, Some};
ghost use Rattle.pages.specs.Stores.{IsNamed, Roomy, ample, make_name};

use std::fmt;
use std::str::FromStr;

#[derive(Clone, Copy, PartialEq, Eq, Debug)]
pub enum Make {
    Grid,
    List,
}

// The word names no source, or more room than one may have.
#[derive(Clone, Copy, PartialEq, Eq, Debug)]
pub struct NoStore;

impl FromStr for Make {
    type Err = NoStore;

    ghost from_str_gives = { IsNamed };

    fn from_str(word: &str) -> Result<Make, NoStore> {
        match word {
            "grid" => Ok(Make::Grid),
            "list" => Ok(Make::List),
            _ => Err(NoStore),
        }
    }
}

impl fmt::Display for Make {
    ghost output = { λ m. Some (make_name m) };

    fn fmt<W: fmt::Write>(&self, f: &mut fmt::Formatter<W>) -> fmt::Result {
        f.write_str(match self {
            Make::Grid => "grid",
            Make::List => "list",
        })
    }
}

#[derive(Clone, Copy)]
pub struct Store {
    pub make: Make,
    // numbers of a grid, entries of a list
    pub matrix: usize,
    pub payout: usize,
}

// The most room of each kind.
const MOST: usize = 4096;

impl Store {
    // Room for every place that there is.
    pub fn ample(make: Make) -> Store
        ensures { result ≡ ample make }
    {
        Store {
            make,
            matrix: 1296,
            payout: 108,
        }
    }
}

// The source that a word asks for, as `list` or `list:40:12`.
impl FromStr for Store {
    type Err = NoStore;

    ghost from_str_gives = { Roomy };

    fn from_str(word: &str) -> Result<Store, NoStore> {
        let mut parts = word.split(':');
        let make = parts.next().ok_or(NoStore)?.parse()?;
        let Some(matrix) = parts.next() else {
            return Ok(Store::ample(make));
        };
        let matrix = room(matrix)?;
        let payout = room(parts.next().ok_or(NoStore)?)?;
        match parts.next() {
            None => Ok(Store {
                make,
                matrix,
                payout,
            }),
            Some(_) => Err(NoStore),
        }
    }
}

fn room(word: &str) -> Result<usize, NoStore>
    ensures { IfOk result (λ n. n ≤ 4096) }
{
    match word.parse::<usize>() {
        Ok(n) if n <= MOST => Ok(n),
        _ => Err(NoStore),
    }
}
