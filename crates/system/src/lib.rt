// A game's figures: the coefficients and settings of A(p) x = b(p), kept within their limits.
#![tactic(auto)]

mod fault;
mod sentence;
mod system;

pub use fault::Fault;
pub use system::System;

#[cfg(test)]
mod tests {
    use super::*;
    use span::{Binary, Millionths, Scale, Spot};
    use std::test::Fail;

    #[test]
    fn coefficients_add_up_to_one_whole(rt: HostRuntime) -> Result<(), Fail> {
        let mut system = System::new::<Millionths>(3, 2)?;
        system.post_matrix(2, 1, 0, 600_000)?;
        system.post_matrix(2, 1, 0, 400_000)?;
        let place = Spot {
            part: 2,
            row: 1,
            column: 0,
        };
        let Err(refused) = system.post_matrix(2, 1, 0, 1) else {
            return Err(Fail::new("one whole and a unit"));
        };
        assert_eq!(rt; refused.number(), 2);
        assert_eq!(rt; refused.place(), place);
        // the sum is still one whole, as these show
        system.post_matrix(2, 1, 0, -2_000_000)?;
        assert_eq!(rt;
            system.post_matrix(2, 1, 0, -1),
            Err(Fault::SumTooLarge(place))
        );
        assert_eq!(rt;
            system.post_matrix(2, 3, 0, 1),
            Err(Fault::Outside(Spot {
                part: 2,
                row: 3,
                column: 0,
            }))
        );
        Ok(())
    }

    #[test]
    fn ranges_are_asked_in_order(rt: HostRuntime) -> Result<(), Fail> {
        let mut system = System::new::<Binary>(12, 8)?;
        assert_eq!(rt; system.set_range(9, 2, 1), Err(Fault::NoSetting(9)));
        assert_eq!(rt; system.set_range(0, 0, 0), Err(Fault::NoSetting(0)));
        assert_eq!(rt;
            system.set_range(8, 1_048_577, 1),
            Err(Fault::RangeReversed(8))
        );
        assert_eq!(rt;
            system.set_range(8, 0, 1_048_577),
            Err(Fault::RangeTooWide(8))
        );
        assert_eq!(rt; Fault::NoSetting(9).number(), 1);
        assert_eq!(rt; Fault::RangeReversed(8).number(), 3);
        assert_eq!(rt; Fault::RangeTooWide(8).number(), 4);
        system.set_range(8, -1_048_576, 1_048_576)?;
        Ok(())
    }

    #[test]
    fn sizes_are_limited(rt: HostRuntime) -> Result<(), Fail> {
        let Err(refused) = System::new::<Binary>(13, 0) else {
            return Err(Fail::new("13 states"));
        };
        assert_eq!(rt; refused.number(), 5);
        assert!(rt; System::new::<Binary>(1, 9).is_err());
        let system = System::new::<Millionths>(12, 8)?;
        assert_eq!(rt; system.units(), 1_000_000);
        assert_eq!(rt; system.states() + system.settings(), 20);
        Ok(())
    }
}
