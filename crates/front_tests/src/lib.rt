//! Tests of the top call, over desks in memory: what no clause says, and values from outside.
#![tactic(auto)]

#[cfg(test)]
mod tests;
