// A game's steps, taken on a new docket over the chosen source.
ghost use Rattle.std.specs.Prelude.{◌≡◌, [], length, IfOk};
ghost use Rattle.filing.specs.Law.{Lawful, turns};
ghost use Rattle.source.specs.Grids.{grid_opened};
ghost use Rattle.source.specs.Lists.{list_opened};
ghost use Rattle.pages.specs.Opened.{opened};

use crate::store::{Make, Store};
use filing::{Outcome, Step, replay};
use source::{Entry, Grid, List, MatrixPlace, PayoutPlace};
use span::Scale;
use std::alloc::{AllocError, Global};

pub(crate) fn outcomes<T: Scale + Drop, F: Scale>(
    heap: Global,
    store: Store,
    steps: &[Step<'_>],
) -> Result<Vec<Outcome>, AllocError>
    ensures { IfOk result (λ v. Lawful T.Scale.unit (opened store) (turns T.Scale.unit F.Scale.unit steps.now v.items [])) }
{
    match store.make {
        Make::Grid => on_grid::<T, F>(heap, store.matrix, store.payout, steps),
        Make::List => on_list::<T, F>(heap, store.matrix, store.payout, steps),
    }
}

fn on_grid<T: Scale + Drop, F: Scale>(
    heap: Global,
    matrix: usize,
    payouts: usize,
    steps: &[Step<'_>],
) -> Result<Vec<Outcome>, AllocError>
    ensures { IfOk result (λ v. Lawful T.Scale.unit (grid_opened matrix payouts) (turns T.Scale.unit F.Scale.unit steps.now v.items [])) }
{
    let mut matrix = vec![in heap; 0; matrix]?;
    let mut payouts = vec![in heap; 0; payouts]?;
    let grid = Grid::new(matrix.as_mut_slice(), payouts.as_mut_slice());
    replay::<Grid, T, F>(heap, grid, steps)
}

fn on_list<T: Scale + Drop, F: Scale>(
    heap: Global,
    matrix: usize,
    payouts: usize,
    steps: &[Step<'_>],
) -> Result<Vec<Outcome>, AllocError>
    ensures { IfOk result (λ v. Lawful T.Scale.unit (list_opened matrix payouts) (turns T.Scale.unit F.Scale.unit steps.now v.items [])) }
{
    let first = MatrixPlace {
        part: 0,
        row: 0,
        column: 0,
    };
    let mut matrix = entries(heap, first, matrix)?;
    let mut payouts = entries(heap, PayoutPlace { part: 0, row: 0 }, payouts)?;
    let list = List::new(matrix.as_mut_slice(), payouts.as_mut_slice());
    replay::<List, T, F>(heap, list, steps)
}

// So many entries; a new list takes each as free.
fn entries<P: Copy + Drop>(
    heap: Global,
    place: P,
    count: usize,
) -> Result<Vec<Entry<P>>, AllocError>
    ensures { IfOk result (λ v. length v.items ≡ count) }
{
    vec![in heap; Entry { place, sum: 0 }; count]
}
