//! Tests of what reads and writes files, through the public calls: what no clause says.
#![tactic(auto)]

#[cfg(test)]
mod tests;
