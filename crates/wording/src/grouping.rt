// Figures for people: decimal digits with a comma between groups of three.
ghost use Rattle.std.specs.Prelude.{◌≡◌, IfOk, string_bytes, IsAscii};
ghost use Rattle.wording.specs.Grouping.{commas, grouped_text, whole_groups};

use std::alloc::{AllocError, Global};

pub fn grouped(heap: Global, n: i64) -> Result<String, AllocError>
    ensures { IfOk result (λ s. string_bytes s ≡ grouped_text n) }
{
    let digits = n.unsigned_abs().to_string(heap)?;
    let text = with_commas(heap, digits.as_str())?;
    if n < 0 {
        return format!(in heap; "-{text}");
    }
    Ok(text)
}

fn with_commas(heap: Global, digits: &str) -> Result<String, AllocError>
    requires { IsAscii digits.now }
    ensures { IfOk result (λ s. string_bytes s ≡ commas digits.now) }
{
    let mut text = String::new(heap);
    let mut left = digits.as_bytes();
    while let Some((digit, others)) = left.split_first() {
        text.push(char::from(*digit))?;
        if whole_groups(others.len()) {
            text.push(',')?;
        }
        left = others;
    }
    Ok(text)
}

fn whole_groups(left: usize) -> bool
    ensures { result ≡ whole_groups left }
{
    left > 0 && left % 3 == 0
}
