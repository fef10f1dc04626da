// Runs the worked figures of posts and sheets and prints what they come to.
#![tactic(auto)]

mod filed;

use std::io;

fn main(rt: HostRuntime) -> io::Result<()> {
    if let Some(number) = filed::three_posts() {
        println!(rt; "600,000 and 400,000 and 1 at one place: turned down, {number}")?;
    }
    sheet(&rt, "27 bytes", &[0; 27])?;
    sheet(&rt, "28 zero bytes", &[0; 28])
}

fn sheet(rt: &HostRuntime, what: &str, bytes: &[u8]) -> io::Result<()> {
    match filed::framing_number(bytes) {
        Some(number) => println!(rt; "{what}: turned down, {number}"),
        None => println!(rt; "{what}: framed"),
    }
}
