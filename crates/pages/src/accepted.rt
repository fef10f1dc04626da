// What an accepted ask came to, for people.
use asking::Asked;
use law::Reply;
use span::Span;
use std::io;
use wording::grouped;

pub(crate) fn tell(rt: &HostRuntime, asked: &Asked, replies: &[Reply]) -> io::Result<()> {
    let [first, ..] = replies else {
        return Ok(());
    };
    let heap = rt.alloc();
    match asked {
        Asked::Open { states, settings } => opened(rt, *states, *settings),
        Asked::Range { part, low, high } => {
            let low = grouped(heap, i64::from(*low))?;
            let high = grouped(heap, i64::from(*high))?;
            println!(rt; "  setting {part} from {low} to {high}")
        }
        Asked::Propose { .. } => println!(rt; "  proposal stands"),
        Asked::Try { .. } => println!(rt; "  trial box accepted"),
        Asked::Run { trials } => {
            let told = telling::told(heap, first)?;
            println!(rt; "  run of {trials} {told}")
        }
        Asked::Row { row } => {
            let told = telling::told(heap, first)?;
            println!(rt; "  row {row}: {told}")
        }
        Asked::Table => table(rt, replies),
        Asked::Post { .. } | Asked::Narrow => Ok(()),
    }
}

fn opened(rt: &HostRuntime, states: usize, settings: usize) -> io::Result<()> {
    let state = if states == 1 { "state" } else { "states" };
    let setting = if settings == 1 { "setting" } else { "settings" };
    println!(rt; "  {states} {state}, {settings} {setting}")
}

// The rows up to the first that is none of the game's.
fn table(rt: &HostRuntime, rows: &[Reply]) -> io::Result<()> {
    println!(rt; "  state   lowest worth   highest worth")?;
    for (state, reply) in rows.iter().enumerate() {
        match reply {
            Reply::Told(row) => match row {
                Ok(range) => table_row(rt, state, range)?,
                Err(_) => return Ok(()),
            },
            Reply::Made(_) => return Ok(()),
        }
    }
    Ok(())
}

fn table_row(rt: &HostRuntime, state: usize, range: &Span) -> io::Result<()> {
    let low = grouped(rt.alloc(), range.low())?;
    let high = grouped(rt.alloc(), range.high())?;
    println!(rt; "  {state:>5}   {low:>12}   {high:>13}")
}
