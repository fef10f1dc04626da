// The questions of the numbers alone: how many there are, and how large.
ghost use Rattle.std.specs.Prelude.{◌≡◌, ◌<◌, ◌≤◌, length, MatchResult};
ghost use Rattle.system.specs.Figures.{FirstBeyond};
ghost use Rattle.prepare.specs.Numbers.{Taken};
ghost use Rattle.prepare.specs.Rows.{Copied};

use super::Proposal;
use crate::fault::Fault;
use span::Scale;
use std::marker::PhantomData;
use system::System;

impl<'a, T: Scale> Proposal<'a, T> {
    pub(crate) fn new(
        system: &'a System,
        table: &[i32],
        guesses: &[i32],
    ) -> Result<Proposal<'a, T>, Fault>
        requires { T.Scale.unit ≡ system.now.units }
        ensures { Taken system.now table.now guesses.now result }
    {
        let n = system.states();
        let units = system.units();
        if table.len() != n * n || guesses.len() != n {
            return Err(Fault::Count {
                table: table.len(),
                guesses: guesses.len(),
            });
        }
        let table = limited(table, 50 * units).map_err(|t| Fault::TableTooLarge {
            row: t / n,
            column: t % n,
        })?;
        let guesses = limited(guesses, 100 * units).map_err(|row| Fault::GuessTooLarge { row })?;
        Ok(Proposal {
            system,
            table,
            guesses,
            scale: PhantomData,
        })
    }
}

// The numbers in an array, each within the limit, or where the first one beyond it stands.
fn limited<const N: usize>(numbers: &[i32], limit: u32) -> Result<[i32; N], usize>
    requires { length numbers.now ≤ N }
    ensures { MatchResult result (λ copied. Copied limit (length numbers.now) numbers.now copied) (λ at. (at < length numbers.now) × FirstBeyond limit numbers.now at) }
{
    if let Some(at) = numbers.iter().position(|x| x.unsigned_abs() > limit) {
        return Err(at);
    }
    let mut copied = [0; N];
    copied[..numbers.len()].copy_from_slice(numbers);
    Ok(copied)
}
