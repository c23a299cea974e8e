//! What programs of a module and its patches are: the words in which machines, layouts and images are stated.
#![tactic(auto)]

mod aim;
mod cause;
mod difference;
pub mod laws;
mod layout;
mod link_fault;
mod patches;
mod point;
mod program;
mod shape;
mod target;
mod value;

pub use a64_inst::{FitFault, Kind, fit, operand_kind};
pub use aim::Aim;
pub use bare_image::{Image, Segment};
pub use cause::Cause;
pub use difference::{DIFFERENCE_FORMS, DifferenceForm, diff_fit, difference_form};
pub use layout::{Layout, PlaceAt, PlacedSpot, Spot};
pub use link_fault::LinkFault;
pub use patches::{FunLine, Function, Insert, PatchTable, PatchTarget, PatchWord, SymbolName};
pub use point::Point;
pub use program::{CodeBlock, DataBlock, Filling, Piece, Program, Stretch, Word};
pub use shape::{Shape, ShapeSpot};
pub use target::Target;
pub use value::{KnownFlags, Object, Value};
