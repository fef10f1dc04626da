// The source that keeps every coefficient, each at its index in a run of numbers.
ghost use Rattle.std.specs.Prelude.{◌≡◌, length};
ghost use Rattle.source.specs.contracts.grid.kept.GridSource.TheImpl.{ghosts as grid};
ghost use Rattle.source.specs.Grids.{RunPosted, grid_opened, run_asked};

mod kept;

use crate::fault::Fault;
use crate::place::Place;
use crate::source::LARGEST;
use span::sum_within;

// The numbers of the matrix at (part * 12 + row) * 12 + column, and the payouts at part * 12 + row.
// A shorter run holds fewer places; what is past the last place is never read.
#[derive(Drop)]
pub struct Grid<'a> {
    matrix: &'a mut [i32],
    payouts: &'a mut [i32],
}

impl<'a> Grid<'a> {
    // An empty grid over the two runs.
    pub fn new(matrix: &'a mut [i32], payouts: &'a mut [i32]) -> Grid<'a>
        ensures { (grid.meaning result ≡ grid_opened (length matrix.old) (length payouts.old)) × grid.sound result }
    {
        matrix.fill(0);
        payouts.fill(0);
        Grid { matrix, payouts }
    }
}

// Adds the amount to the number at the place.
fn post_run(run: &mut [i32], place: Place, amount: i32) -> Result<(), Fault>
    ensures { RunPosted run.old place amount result run.new }
{
    let at = place.index().ok_or(Fault::OutOfRange(place))?;
    let held = *run.get(at).ok_or(Fault::Full(place))?;
    let sum = sum_within(LARGEST, held, amount).ok_or(Fault::SumTooLarge(place))?;
    run[at] = sum;
    Ok(())
}

// The number at the place, if the run reaches it.
fn ask_run(run: &[i32], place: Place) -> Option<i32>
    ensures { result ≡ run_asked run.now place }
{
    run.get(place.index()?).copied()
}
