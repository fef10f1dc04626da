// Refusals and mistakes of a game's calls by sample, with the words that they get.
use asking::{Asked, Unread, read};
use filing::{Outcome, Step, replay};
use law::Reply;
use source::{Grid, Source};
use span::{Binary, Millionths};
use std::alloc::Global;
use std::test::Fail;
use telling::{bare, told};

#[test]
fn refused_calls_are_told(rt: HostRuntime) -> Result<(), Fail> {
    let heap = rt.alloc();
    let size = last(heap, &["open 13 0"])?;
    assert_eq!(rt;
        told(heap, &size)?.as_str(),
        "turned down, 5 (docket): a game has 1 to 12 states and 0 to 8 settings, not 13 and 0"
    );
    let outside = last(heap, &["open 1 0", "post-payout 0 1 5"])?;
    assert_eq!(rt;
        told(heap, &outside)?.as_str(),
        "turned down, 1 (docket): the game has no place part 0, row 1, column 12"
    );
    let full = last(heap, &["open 2 0", "post-matrix 0 0 1 5"])?;
    assert_eq!(rt;
        told(heap, &full)?.as_str(),
        "turned down, 21 (source): the source has no room left for part 0, row 0, column 1"
    );
    let reversed = last(heap, &["open 1 1", "range 1 2 1"])?;
    assert_eq!(rt;
        told(heap, &reversed)?.as_str(),
        "turned down, 3 (docket): the range of setting 1 has its low end above its high end"
    );
    let count = last(heap, &["propose 1 2 / 3"])?;
    assert_eq!(rt;
        told(heap, &count)?.as_str(),
        "turned down, 6 (docket): the inverse has 2 numbers with 1 guesses; n times n with n are needed"
    );
    let none = last(heap, &["propose 0 / 0", "run 2"])?;
    assert_eq!(rt;
        told(heap, &none)?.as_str(),
        "turned down, 12 (docket): no trial was accepted; worst end row 0, low"
    );
    Ok(())
}

#[test]
fn refused_calls_are_bare(rt: HostRuntime) -> Result<(), Fail> {
    let heap = rt.alloc();
    let full = last(heap, &["open 2 0", "post-payout 0 1 5"])?;
    assert_eq!(rt; bare(heap, &full)?.as_str(), "no 21 source 0 1 12");
    let high = last(heap, &["propose 0 / 0", "try -2 1"])?;
    assert_eq!(rt; bare(heap, &high)?.as_str(), "no 12 docket 0 0 0");
    let row = last(heap, &["row 4294967295"])?;
    assert_eq!(rt; bare(heap, &row)?.as_str(), "no 14 docket 0 0 0");
    Ok(())
}

#[test]
fn bad_lines_are_told(rt: HostRuntime) -> Result<(), Fail> {
    let heap = rt.alloc();
    let few = wrong(heap, "open", &["1"])?;
    assert_eq!(rt; few.as_str(), "expected open n k; 1 number was given");
    let stroke = wrong(heap, "propose", &["1", "2"])?;
    assert_eq!(rt;
        stroke.as_str(),
        "expected propose r.. / g..; no stroke parts the two lists"
    );
    let minus = wrong(heap, "row", &["-1"])?;
    assert_eq!(rt;
        minus.as_str(),
        "\"-1\" is not a whole number from 0 to 4,294,967,295"
    );
    let many = wrong(heap, "run", &["256"])?;
    assert_eq!(rt;
        many.as_str(),
        "\"256\" is not a whole number from 0 to 255"
    );
    let second = wrong(heap, "propose", &["1", "/", "2", "/"])?;
    assert_eq!(rt;
        second.as_str(),
        "\"/\" is not a whole number from -2,147,483,648 to 2,147,483,647"
    );
    Ok(())
}

// What the last of the lines is answered, on a new docket over a grid of two numbers.
fn last(heap: Global, lines: &[&str]) -> Result<Reply, Fail> {
    let mut game = Vec::new(heap);
    for line in lines {
        game.push(asked(heap, line)?)?;
    }
    let mut steps = Vec::new(heap);
    for asked in game.iter() {
        steps.push(Step::Asking(asked.ask(0)))?;
    }
    let mut matrix = [0];
    let mut payouts = [0];
    let grid = Grid::new(&mut matrix, &mut payouts);
    let outcomes = replay::<Grid, Millionths, Binary>(heap, grid, steps.as_slice())?;
    match outcomes.last() {
        Some(Outcome::Replied(reply)) => Ok(*reply),
        _ => Err(Fail::new("no reply")),
    }
}

fn asked(heap: Global, line: &str) -> Result<Asked, Fail> {
    let mut words = line.split_whitespace();
    let name = words.next().ok_or("an empty line")?;
    let numbers: Vec<&str> = words.collect(heap)?;
    read(heap, name, numbers.as_slice()).map_err(|_| Fail::new("a bad line"))
}

fn wrong<'a>(heap: Global, name: &'a str, words: &[&'a str]) -> Result<String, Fail> {
    match read(heap, name, words) {
        Ok(asked) => {
            drop(asked);
            Err(Fail::new("an ask"))
        }
        Err(Unread::Mistaken(mistake)) => Ok(mistake.to_string(heap)?),
        Err(Unread::OutOfMemory(error)) => Err(error.into()),
    }
}
