// Refusals and mistakes by sample, with the words that they get.
use script::{Call, read};
use span::Millionths;
use std::alloc::{AllocError, Global};
use std::test::Fail;
use wording::{bare, told};

const MOST: i64 = i64::MAX;

#[test]
fn refusals_are_told(rt: HostRuntime) -> Result<(), Fail> {
    let table = [
        (
            Call::Span { low: 3000, high: 2 },
            "turned down, 3 (span): the low end, 3,000, is above the high end, 2",
        ),
        (
            Call::SpanAdd {
                a: 0,
                b: MOST,
                c: 0,
                d: 1,
            },
            "turned down, 40 (span): the sum does not fit signed 64 bits",
        ),
        (
            Call::SpanSub {
                a: -2,
                b: 0,
                c: 0,
                d: MOST,
            },
            "turned down, 40 (span): the difference does not fit signed 64 bits",
        ),
        (
            Call::SpanMul {
                a: 2,
                b: 2,
                c: MOST,
                d: MOST,
            },
            "turned down, 40 (span): the product does not fit signed 64 bits",
        ),
        (
            Call::Audit {
                guess: 0,
                low: 1,
                high: 0,
            },
            "turned down, 3 (span): the low end, 1, is above the high end, 0",
        ),
        (
            Call::Audit {
                guess: 850_000,
                low: -333_333,
                high: -333_333,
            },
            "must read 849,999..850,000; dropping remainders printed 850,000..850,000; the low end had moved inward",
        ),
    ];
    for (call, words) in table {
        let found = call.answer::<Millionths>();
        let told = told(rt.alloc(), &found)?;
        assert_eq!(rt; told.as_str(), words);
    }
    Ok(())
}

#[test]
fn refusals_are_bare(rt: HostRuntime) -> Result<(), Fail> {
    let table = [
        (Call::Span { low: 4, high: 3 }, "no 3 span 0 0 0"),
        (
            Call::SpanMul {
                a: MOST,
                b: MOST,
                c: 2,
                d: 2,
            },
            "no 40 span 0 0 0",
        ),
        (Call::Bring { v: -1 }, "ok -1 0"),
        (
            Call::Audit {
                guess: -7,
                low: -1,
                high: 1,
            },
            "ok -8 -6 -7 -7 both",
        ),
    ];
    for (call, words) in table {
        let found = call.answer::<Millionths>();
        let line = bare(rt.alloc(), &found)?;
        assert_eq!(rt; line.as_str(), words);
    }
    Ok(())
}

#[test]
fn mistakes_are_told(rt: HostRuntime) -> Result<(), Fail> {
    let heap = rt.alloc();
    let unknown = wrong(heap, "Bring", &["1"])?;
    assert_eq!(rt;
        unknown.as_str(),
        "\"Bring\" is no call; expected bring, span, span-add, span-sub, span-mul, span-back or audit"
    );
    let many = wrong(heap, "bring", &["1", "x"])?;
    assert_eq!(rt; many.as_str(), "bring takes 1 number, 2 were given");
    let few = wrong(heap, "audit", &["1"])?;
    assert_eq!(rt; few.as_str(), "audit takes 3 numbers, 1 was given");
    let wide = wrong(
        heap,
        "span",
        &["-9223372036854775808", "9223372036854775808"],
    )?;
    assert_eq!(rt;
        wide.as_str(),
        "\"9223372036854775808\" is not a whole number from -9,223,372,036,854,775,808 to 9,223,372,036,854,775,807"
    );
    Ok(())
}

fn wrong<'a>(heap: Global, name: &'a str, words: &[&'a str]) -> Result<String, AllocError> {
    match read(name, words) {
        Ok(_) => String::from_str(heap, "a call"),
        Err(mistake) => mistake.to_string(heap),
    }
}
