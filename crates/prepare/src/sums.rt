// Sums of products, exact until they are brought back.
ghost use Rattle.std.specs.Prelude.{◌≡◌, ℕ, ◌*◌, ◌^◌, ◌<◌, ◌≤◌, length, pos, unsigned_abs};
ghost use Rattle.span.specs.Intervals.{point};
ghost use Rattle.span.specs.Questions.{ends_within};
ghost use Rattle.span.specs.Spans.{ends};
ghost use Rattle.system.specs.Figures.{spans};
ghost use Rattle.prepare.specs.Dots.{dotted};

use span::{Scale, Span};

// The sum of a[j] × b[j × stride]; the index says the stride, and `step_by` would say no more.
pub(crate) fn dot(a: &[i32], b: &[i32], stride: usize) -> i64
    requires few { length a.now ≤ 12 }
    requires near { stride ≤ 12 }
    requires reach { (j : ℕ) → j < length a.now → j * stride < length b.now }
    requires fits { (m : ℕ) → m ≤ length a.now → unsigned_abs (dotted a.now b.now stride m) < 2 ^ 62 }
    ensures { result ≡ dotted a.now b.now stride (length a.now) }
{
    let mut sum = 0;
    for (j, x) in a.iter().enumerate() {
        sum += i64::from(*x) * i64::from(b[j * stride]);
    }
    sum
}

// Both ends within w wholes of s units?
pub(crate) fn within(z: Span, w: u32, s: u32) -> bool
    requires { w * s < 2 ^ 32 }
    ensures { result ≡ ends_within s w (ends z) }
{
    let limit = u64::from(w * s);
    z.low().unsigned_abs() <= limit && z.high().unsigned_abs() <= limit
}

pub(crate) fn zeros<const N: usize>() -> [Span; N]
    ensures { (i : ℕ) → spans result i ≡ point (pos 0) }
{
    [Span::default(); N]
}

pub(crate) fn one_whole<T: Scale>() -> Span
    ensures { ends result ≡ point (pos T.Scale.unit) }
{
    Span::point(T::units())
}
