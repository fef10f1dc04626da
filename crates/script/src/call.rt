// A call: its kind with the numbers it was given, each under its name.
ghost use Rattle.std.specs.Prelude.{◌≡◌, length, MatchOption, ◌≢◌};
ghost use Rattle.script.specs.Kinds.{takes};
ghost use Rattle.script.specs.Calls.{kind_of, numbers_of};

use crate::kind::Kind;

#[derive(Clone, Copy, PartialEq, Eq, Debug)]
pub enum Call {
    Bring { v: i64 },
    Span { low: i64, high: i64 },
    // a..b with c..d
    SpanAdd { a: i64, b: i64, c: i64, d: i64 },
    SpanSub { a: i64, b: i64, c: i64, d: i64 },
    SpanMul { a: i64, b: i64, c: i64, d: i64 },
    SpanBack { low: i64, high: i64 },
    Audit { guess: i64, low: i64, high: i64 },
}

impl Call {
    // The call of this kind with these numbers, where there are as many as it takes.
    pub fn new(kind: Kind, numbers: &[i64]) -> Option<Call>
        ensures { MatchOption result (length numbers.now ≢ takes kind) (λ call. (kind_of call ≡ kind) × (numbers_of call ≡ numbers.now)) }
    {
        match (kind, numbers) {
            (Kind::Bring, &[v]) => Some(Call::Bring { v }),
            (Kind::Span, &[low, high]) => Some(Call::Span { low, high }),
            (Kind::SpanAdd, &[a, b, c, d]) => Some(Call::SpanAdd { a, b, c, d }),
            (Kind::SpanSub, &[a, b, c, d]) => Some(Call::SpanSub { a, b, c, d }),
            (Kind::SpanMul, &[a, b, c, d]) => Some(Call::SpanMul { a, b, c, d }),
            (Kind::SpanBack, &[low, high]) => Some(Call::SpanBack { low, high }),
            (Kind::Audit, &[guess, low, high]) => Some(Call::Audit { guess, low, high }),
            (_, _) => None,
        }
    }
}
