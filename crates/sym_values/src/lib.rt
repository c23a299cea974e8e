//! What single operations give in a machine whose values may be addresses: numbers, sums, flags, targets, choices and
//! loads.
#![tactic(auto)]

mod carries;
mod choices;
mod flags;
mod kept;
pub mod laws;
mod loads;
mod numbers;
mod same;
mod sums;
mod targets;

pub use choices::{choose, is_number_zero, truth};
pub use flags::{
    UNKNOWN, can_ask, carried_flags, compared_points, flags_of_offsets, flags_of_other,
    flags_of_positive, guessed, is_address, known, number_flags, point_and_number,
};
pub use kept::KeptCells;
pub use numbers::{binary, number, number_in, operand};
pub use same::same_object;
pub use sums::{is_zero, sum};
pub use targets::{join_low, target};
