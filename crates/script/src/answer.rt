// What a call answers, by the span and the audit that it asks for.
ghost use Rattle.std.specs.Prelude.{◌≡◌};
ghost use Rattle.span.specs.Spans.{ends};
ghost use Rattle.script.specs.Answers.{Answered};
ghost use Rattle.script.specs.Pairs.{Pair, Brought, Row, from_to};

use crate::call::Call;
use audit::{Finding, audit};
use span::{Fault, Scale, Span};

#[derive(Clone, Copy, Debug)]
pub enum Answer {
    // the figures below and above
    Figures { lower: i64, upper: i64 },
    Range(Span),
    Row(Finding),
}

impl Call {
    pub fn answer<T: Scale>(self) -> Result<Answer, Fault>
        ensures { Answered T.Scale.unit self result }
    {
        match self {
            Call::Bring { v } => {
                let (lower, upper) = T::bring_back(v);
                Ok(Answer::Figures { lower, upper })
            }
            Call::Span { low, high } => Span::new(low, high).map(Answer::Range),
            Call::SpanAdd { a, b, c, d } => both(a, b, c, d, Span::add).map(Answer::Range),
            Call::SpanSub { a, b, c, d } => both(a, b, c, d, Span::subtract).map(Answer::Range),
            Call::SpanMul { a, b, c, d } => both(a, b, c, d, Span::multiply).map(Answer::Range),
            Call::SpanBack { low, high } => brought_back::<T>(low, high).map(Answer::Range),
            Call::Audit { guess, low, high } => audited::<T>(guess, low, high).map(Answer::Row),
        }
    }
}

// a..b joined with c..d.
fn both<F: FnOnce(Span, Span) -> Result<Span, Fault>>(
    a: i64,
    b: i64,
    c: i64,
    d: i64,
    join: F,
) -> Result<Span, Fault>
    requires { F.IsAlwaysCallable join }
    ensures { Pair a b result (Pair c d result ((s t : Span) × (ends s ≡ from_to a b) × (ends t ≡ from_to c d) × F.post join s t result)) }
{
    join(Span::new(a, b)?, Span::new(c, d)?)
}

fn brought_back<T: Scale>(low: i64, high: i64) -> Result<Span, Fault>
    ensures { Brought T.Scale.unit low high result }
{
    Ok(Span::new(low, high)?.bring_back::<T>())
}

fn audited<T: Scale>(guess: i64, low: i64, high: i64) -> Result<Finding, Fault>
    ensures { Row T.Scale.unit guess low high result }
{
    audit::<T>(guess, Span::new(low, high)?)
}
