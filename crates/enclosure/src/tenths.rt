// Tenths, by which a box grows.
ghost use Rattle.std.proofs.Common.{rules};

use span::Scale;

pub(crate) struct Tenths;

impl Scale for Tenths {
    const S: i64 = 10;

    ghost unit = { 10 };

    ghost least = { Prim.search rules };

    ghost most = { Prim.search rules };

    fn units() -> i64 {
        Self::S
    }
}
