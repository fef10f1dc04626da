// Trying one box, and running until one is accepted.
ghost use Rattle.std.specs.Prelude.{◌≡◌, ◌≤◌, true, Err, IfOk, MatchResult, ◌≢◌};
ghost use Rattle.method.specs.Method.{Game, Proposal};
ghost use Rattle.method.specs.Trials.{is_inside};
ghost use Rattle.prepare.specs.Proposals.{PreparedFor};
ghost use Rattle.system.specs.Figures.{spans};
ghost use Rattle.enclosure.specs.declared.fault.Fault.TheVariants.{OtherScale};
ghost use Rattle.enclosure.specs.Enclosures.{Tried, Ran, Found};

use super::Enclosure;
use crate::boxes::{first_box, given_box};
use crate::fault::Fault;
use crate::trial::Trial;
use prepare::Prepared;
use span::Scale;

impl Enclosure {
    // Tries the box that the numbers give, low before high, row by row.
    pub fn attempt<T: Scale>(prepared: &Prepared, numbers: &[i32]) -> Result<Enclosure, Fault>
        ensures scale { (T.Scale.unit ≢ prepared.now.units) → result ≡ Err (OtherScale prepared.now.units) }
        ensures tried { (G : Game) (H : Proposal) → PreparedFor T.Scale.unit G H prepared.now → Tried T.Scale.unit G H numbers.now result }
        ensures kept { IfOk result (λ e. e.prepared ≡ prepared.now) }
    {
        same_scale::<T>(prepared)?;
        let y = given_box(numbers, prepared.states())?;
        let trial = Trial::new::<T>(prepared, y)?;
        if !trial.is_accepted() {
            return Err(trial.worst());
        }
        Ok(Enclosure::of(&trial))
    }

    // Tries one box after another, and tells the number of the accepted trial.
    pub fn run<T: Scale>(prepared: &Prepared, trials: u8) -> Result<(u8, Enclosure), Fault>
        ensures scale { (T.Scale.unit ≢ prepared.now.units) → result ≡ Err (OtherScale prepared.now.units) }
        ensures ran { (G : Game) (H : Proposal) → PreparedFor T.Scale.unit G H prepared.now → Ran T.Scale.unit G H trials result }
        ensures kept { IfOk result (λ found. found.1.prepared ≡ prepared.now) }
    {
        same_scale::<T>(prepared)?;
        if trials < 1 || trials > 10 {
            return Err(Fault::Trials { asked: trials });
        }
        Enclosure::first_accepted::<T>(prepared, trials)
    }

    // One box after another, until one is accepted or the trials are used up: a run is a loop
    // that yields its outcome.
    fn first_accepted<T: Scale>(prepared: &Prepared, trials: u8) -> Result<(u8, Enclosure), Fault>
        requires scale { T.Scale.unit ≡ prepared.now.units }
        requires some { 1 ≤ trials }
        ensures found { (G : Game) (H : Proposal) → PreparedFor T.Scale.unit G H prepared.now → Found T.Scale.unit G H trials result }
        ensures kept { IfOk result (λ found. found.1.prepared ≡ prepared.now) }
    {
        let mut number = 1;
        let mut y = first_box(prepared);
        'trials: loop {
            let trial = match Trial::new::<T>(prepared, y) {
                Ok(trial) => trial,
                Err(fault) => break Err(fault),
            };
            if trial.is_accepted() {
                break Ok((number, Enclosure::of(&trial)));
            }
            if number == trials {
                break Err(trial.worst());
            }
            y = trial.grown();
            number += 1;
        }
    }

    // What an accepted trial gives.
    fn of(trial: &Trial) -> Enclosure
        requires { is_inside trial.now.prepared.now.states (spans trial.now.y) (spans trial.now.v) ≡ true }
        ensures prepared { result.prepared ≡ trial.now.prepared.now }
        ensures trial { result.trial ≡ trial.now.y }
        ensures correction { result.correction ≡ trial.now.v }
        ensures narrowings { result.narrowings ≡ 0 }
    {
        Enclosure {
            prepared: *trial.prepared,
            trial: trial.y,
            correction: trial.v,
            narrowings: 0,
        }
    }
}

// Does what was prepared count in the named scale?
pub(super) fn same_scale<T: Scale>(prepared: &Prepared) -> Result<(), Fault>
    ensures { MatchResult result (λ done. T.Scale.unit ≡ prepared.now.units) (λ f. (f ≡ OtherScale prepared.now.units) × (T.Scale.unit ≢ prepared.now.units)) }
{
    let units = prepared.units();
    if T::units() != i64::from(units) {
        return Err(Fault::OtherScale { units });
    }
    Ok(())
}
