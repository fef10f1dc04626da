// Trial boxes: the one that is given, the first of a run, and the next.
ghost use Rattle.std.specs.Prelude.{◌≡◌, ◌*◌, ◌^◌, ◌<◌, ◌≤◌, ◌∷◌, length, pos, ◌+ℤ◌, ◌-ℤ◌, ◌*ℤ◌, ◌<ℤ◌, Some, None, MatchOption, MatchResult, slice_index_or, unsigned_abs};
ghost use Rattle.std.specs.Int.{int_max, int_min};
ghost use Rattle.span.specs.Questions.{first_no};
ghost use Rattle.span.specs.Rounding.{floor, ceiling};
ghost use Rattle.span.specs.Spans.{ends};
ghost use Rattle.method.specs.Method.{size};
ghost use Rattle.method.specs.Trials.{grown};
ghost use Rattle.system.specs.Figures.{spans};
ghost use Rattle.enclosure.specs.Boxed.{BoxedBy, Holds, about_zero, box, count_question, greatest_size, order_questions, reach_questions};

use crate::fault::Fault;
use crate::tenths::Tenths;
use prepare::Prepared;
use span::{Scale, Span};

// The box that 2 × n numbers give, low before high, row by row.
pub(crate) fn given_box(numbers: &[i32], n: usize) -> Result<[Span; 12], Fault>
    requires { n ≤ 12 }
    ensures { BoxedBy (count_question n numbers.now ∷ order_questions n numbers.now) n (box numbers.now) result }
{
    if numbers.len() != 2 * n {
        return Err(Fault::Count {
            given: numbers.len(),
        });
    }
    ordered_box(numbers, n)
}

fn ordered_box(numbers: &[i32], n: usize) -> Result<[Span; 12], Fault>
    requires few { n ≤ 12 }
    requires enough { length numbers.now ≡ 2 * n }
    ensures { BoxedBy (order_questions n numbers.now) n (box numbers.now) result }
{
    let (pairs, _) = numbers.as_chunks::<2>();
    let mut rows = [Span::default(); 12];
    for (row, pair) in pairs.iter().enumerate() {
        let Some(span) = between(pair) else {
            return Err(Fault::BoxReversed { row });
        };
        rows[row] = span;
    }
    Ok(rows)
}

// The span from the first number to the second, where they are in order.
fn between(pair: &[i32; 2]) -> Option<Span>
    ensures { MatchOption result (slice_index_or pair.now 1 (pos 0) <ℤ slice_index_or pair.now 0 (pos 0)) (λ s. ends s ≡ record { low = slice_index_or pair.now 0 (pos 0); high = slice_index_or pair.now 1 (pos 0) }) }
{
    Span::new(i64::from(pair[0]), i64::from(pair[1])).ok()
}

// Are all ends within 100 wholes?
pub(crate) fn limited<T: Scale>(y: &[Span]) -> Result<(), Fault>
    ensures { MatchResult result (λ done. first_no (reach_questions T.Scale.unit (length y.now) (spans y.now)) ≡ None) (λ f. first_no (reach_questions T.Scale.unit (length y.now) (spans y.now)) ≡ Some f) }
{
    let limit = 100 * T::units().unsigned_abs();
    for (row, s) in y.iter().enumerate() {
        if greater_end(*s) > limit {
            return Err(Fault::BoxTooLarge { row });
        }
    }
    Ok(())
}

// The greater size of the two ends.
fn greater_end(s: Span) -> u64
    ensures { result ≡ size (ends s) }
{
    s.low().unsigned_abs().max(s.high().unsigned_abs())
}

// −(2m + 2)..2m + 2 in every row, m being the greatest size of an end of the residual.
pub(crate) fn first_box(prepared: &Prepared) -> [Span; 12]
    ensures { Holds prepared.now.states result (λ i. about_zero (greatest_size prepared.now prepared.now.states)) }
{
    let mut rows = [Span::default(); 12];
    rows[..prepared.states()].fill(about_zero(greatest_size(prepared)));
    rows
}

fn about_zero(size: u64) -> Span
    requires { size < 2 ^ 60 }
    ensures { ends result ≡ about_zero size }
{
    let reach = (2 * size + 2) as i64;
    Span::new(-reach, reach).unwrap()
}

fn greatest_size(prepared: &Prepared) -> u64
    ensures is { result ≡ greatest_size prepared.now prepared.now.states }
    ensures small { result < 2 ^ 60 }
{
    let mut greatest: u64 = 0;
    for z in &prepared.residual()[..prepared.states()] {
        greatest = greatest.max(greater_end(*z));
    }
    greatest
}

pub(crate) fn grown_row(v: Span) -> Span
    requires { size (ends v) ≤ 2 ^ 59 }
    ensures { ends result ≡ grown (ends v) }
{
    Span::new(grown_low(v.low()), grown_high(v.high())).unwrap()
}

// The lesser of 9 and 11 tenths, rounded down, minus 1.
fn grown_low(x: i64) -> i64
    requires { unsigned_abs x ≤ 2 ^ 59 }
    ensures { result ≡ int_min (floor 10 (pos 9 *ℤ x)) (floor 10 (pos 11 *ℤ x)) -ℤ pos 1 }
{
    let (nine, _) = Tenths::bring_back(9 * x);
    let (eleven, _) = Tenths::bring_back(11 * x);
    nine.min(eleven) - 1
}

// The greater of 9 and 11 tenths, rounded up, plus 1.
fn grown_high(x: i64) -> i64
    requires { unsigned_abs x ≤ 2 ^ 59 }
    ensures { result ≡ int_max (ceiling 10 (pos 9 *ℤ x)) (ceiling 10 (pos 11 *ℤ x)) +ℤ pos 1 }
{
    let (_, nine) = Tenths::bring_back(9 * x);
    let (_, eleven) = Tenths::bring_back(11 * x);
    nine.max(eleven) + 1
}
