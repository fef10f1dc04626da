// Preparing a proposal, or turning it down.
ghost use Rattle.std.specs.Prelude.{◌≡◌, IfOk, ◌==◌};
ghost use Rattle.prepare.specs.Proposals.{Proposed, Tabled, offer};

use super::Prepared;
use crate::fault::Fault;
use crate::proposal::Proposal;
use span::Scale;
use system::System;

impl Prepared {
    // Asks the questions of a proposal, R by rows and then the guesses, and works out its
    // residual and iteration matrix.
    pub fn new<T: Scale>(system: &System, table: &[i32], guesses: &[i32]) -> Result<Prepared, Fault>
        ensures proposed { Proposed T.Scale.unit system.now table.now guesses.now result }
        ensures table { IfOk result (Tabled system.now.states (offer system.now.states table.now guesses.now)) }
    {
        if !same_scale::<T>(system) {
            return Err(Fault::OtherScale {
                units: system.units(),
            });
        }
        let proposal = Proposal::<T>::new(system, table, guesses)?;
        let residual = proposal.residual()?;
        let iteration = proposal.iteration()?;
        Ok(Prepared {
            units: system.units(),
            states: system.states(),
            table: proposal.table,
            guesses: proposal.guesses,
            residual,
            iteration,
        })
    }
}

// Is the system's scale the named one?
fn same_scale<T: Scale>(system: &System) -> bool
    ensures { result ≡ (T.Scale.unit == system.now.units) }
{
    T::units() == i64::from(system.units())
}
