// Tests of what a game's calls are turned down with, from the line to its words.
#![tactic(auto)]

#[cfg(test)]
mod games;
