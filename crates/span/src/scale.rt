// Scales: how many units make one whole, and how a figure is brought back by them.
ghost use Rattle.std.specs.Prelude.{◌≡◌, ℕ, ◌≤◌, pos, ◌<ℤ◌};
ghost use Rattle.span.specs.Rounding.{floor, ceiling};
ghost use Rattle.std.proofs.Common.{rules};

// A scale's meaning is S, the units in one whole.
pub trait Scale {
    const S: i64;

    ghost unit: { ℕ };

    // The units in one whole.
    fn units() -> i64
        ensures { result ≡ pos unit };

    // The greatest whole number not above v / S, and the least not below it: by division, where
    // the scale knows no shorter way.
    fn bring_back(v: i64) -> (i64, i64)
        ensures { (result.0 ≡ floor unit v) × (result.1 ≡ ceiling unit v) }
    {
        let s = Self::units();
        (below(v, s), above(v, s))
    }

    ghost least: { 2 ≤ unit };

    ghost most: { unit ≤ 1048576 };
}

fn below(v: i64, s: i64) -> i64
    requires { pos 1 <ℤ s }
    ensures { (S : ℕ) → s ≡ pos S → result ≡ floor S v }
{
    v.div_euclid(s)
}

// Division drops the remainder, which is upward where v is not above 0.
fn above(v: i64, s: i64) -> i64
    requires { pos 1 <ℤ s }
    ensures { (S : ℕ) → s ≡ pos S → result ≡ ceiling S v }
{
    if v > 0 { (v - 1) / s + 1 } else { v / s }
}

// Millionths of a bet.
#[derive(Clone, Copy, Debug)]
pub struct Millionths;

impl Scale for Millionths {
    const S: i64 = 1_000_000;

    ghost unit = { 1000000 };

    ghost least = { Prim.search rules };

    ghost most = { Prim.search rules };

    fn units() -> i64 {
        Self::S
    }
}

// Units of two to the minus twentieth, brought back by shifting.
#[derive(Clone, Copy, Debug)]
pub struct Binary;

impl Scale for Binary {
    const S: i64 = 1_048_576;

    ghost unit = { 1048576 };

    ghost least = { Prim.search rules };

    ghost most = { Prim.search rules };

    fn units() -> i64 {
        Self::S
    }

    fn bring_back(v: i64) -> (i64, i64) {
        let lower = v >> 20;
        let upper = if lower << 20 == v { lower } else { lower + 1 };
        (lower, upper)
    }
}
