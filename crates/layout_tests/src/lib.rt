//! Tests of layouts over their public calls.
#![tactic(auto)]

#[cfg(test)]
mod placing;
