//! Tests of images, instructions and the machine that runs them, over their public calls.
#![tactic(auto)]

#[cfg(test)]
mod decoding;
#[cfg(test)]
mod images;
#[cfg(test)]
mod machine;
#[cfg(test)]
mod operations;
#[cfg(test)]
mod running;
