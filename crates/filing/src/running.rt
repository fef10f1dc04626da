// Running the steps of a filing in order.
ghost use Rattle.std.specs.Prelude.{◌≡◌, List, [], replicate, IfOk, if◌then◌else◌};
ghost use Rattle.source.specs.Meaning.{Meaning};
ghost use Rattle.law.specs.Calls.{Given};
ghost use Rattle.docket.specs.Dockets.{After, Of};
ghost use Rattle.filing.specs.Law.{Lawful, WroteRight, asked, bytes_in, turn, turns};
ghost use Rattle.filing.specs.Law.Turn.{checked};
ghost use Rattle.filing.specs.Turns.{Turned};

use crate::step::{Outcome, Step};
use docket::Docket;
use law::{Ask, Reply};
use sheet::{Framed, Rechecked, write};
use source::Source;
use span::Scale;
use std::alloc::{AllocError, Global};

// One outcome for each step on a new docket over the source, in order. T is the docket's scale, F
// another that a sheet may be framed for.
pub fn replay<C: Source + Drop, T: Scale + Drop, F: Scale>(
    heap: Global,
    source: C,
    steps: &[Step<'_>],
) -> Result<Vec<Outcome>, AllocError>
    ensures { IfOk result (λ v. Lawful T.Scale.unit (C.Source.meaning source) (turns T.Scale.unit F.Scale.unit steps.now v.items [])) }
{
    let mut docket: Docket<C, T> = Docket::new(source);
    let mut outcomes = Vec::new(heap);
    for step in steps {
        outcomes.push(taken::<C, T, F>(heap, &mut docket, *step)?)?;
    }
    Ok(outcomes)
}

fn taken<C: Source, T: Scale, F: Scale>(
    heap: Global,
    docket: &mut Docket<C, T>,
    step: Step<'_>,
) -> Result<Outcome, AllocError>
    ensures { IfOk result (λ o. ((M : Meaning) (h : List Given) → After C.Source T.Scale.unit M h docket.old → Of C.Source docket.new (Turned T.Scale.unit M h (turn T.Scale.unit F.Scale.unit step.entry o)))) }
{
    match step {
        Step::Asking(ask) => Ok(Outcome::Replied(answered(docket, ask))),
        Step::Check { bytes, own } => Ok(Outcome::Checked(checked_for::<C, T, F>(
            docket, bytes, own,
        ))),
        Step::Write { room } => Ok(Outcome::Wrote(wrote(heap, docket, room)?)),
    }
}

// What a call or the asking for a row is answered.
fn answered<C: Source, T: Scale>(docket: &mut Docket<C, T>, ask: Ask<'_>) -> Reply
    ensures { (M : Meaning) (h : List Given) → After C.Source T.Scale.unit M h docket.old → Of C.Source docket.new (Turned T.Scale.unit M h (asked ask.entry result)) }
{
    match ask {
        Ask::Make(call) => Reply::Made(docket.call(call)),
        Ask::Row { row } => Reply::Told(docket.row(row)),
    }
}

// Frames the bytes for the docket's own scale or for F.
fn checked_for<C: Source, T: Scale, F: Scale>(
    docket: &mut Docket<C, T>,
    bytes: &[u8],
    own: bool,
) -> Result<Rechecked, sheet::Fault>
    ensures { (M : Meaning) (h : List Given) → After C.Source T.Scale.unit M h docket.old → Of C.Source docket.new (Turned T.Scale.unit M h (checked (if own then T.Scale.unit else F.Scale.unit) bytes.now result)) }
{
    if own {
        rechecked::<C, T, T>(docket, bytes)
    } else {
        rechecked::<C, T, F>(docket, bytes)
    }
}

// Frames the bytes for the scale G, and rechecks the sheet on the docket.
fn rechecked<C: Source, T: Scale, G: Scale>(
    docket: &mut Docket<C, T>,
    bytes: &[u8],
) -> Result<Rechecked, sheet::Fault>
    ensures { (M : Meaning) (h : List Given) → After C.Source T.Scale.unit M h docket.old → Of C.Source docket.new (Turned T.Scale.unit M h (checked G.Scale.unit bytes.now result)) }
{
    Framed::new::<G>(bytes)?.recheck(docket)
}

// The sheet in a buffer of that size. Its refusal is an outcome like any other, and stands within;
// running out of memory is none.
fn wrote<C: Source, T: Scale>(
    heap: Global,
    docket: &Docket<C, T>,
    room: usize,
) -> Result<Result<Vec<u8>, sheet::Fault>, AllocError>
    ensures { IfOk result (λ o. ((M : Meaning) (h : List Given) → After C.Source T.Scale.unit M h docket.now → WroteRight T.Scale.unit h room (bytes_in o))) }
{
    let mut buffer = blank(heap, room)?;
    match write(docket, buffer.as_mut_slice()) {
        Ok(_) => Ok(Ok(buffer)),
        Err(fault) => Ok(Err(fault)),
    }
}

fn blank(heap: Global, room: usize) -> Result<Vec<u8>, AllocError>
    ensures { IfOk result (λ v. v.items ≡ replicate room 170) }
{
    vec![in heap; 170; room]
}
