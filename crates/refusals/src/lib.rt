// Tests of what is turned down, from the line to its words.
#![tactic(auto)]

#[cfg(test)]
mod tests;
