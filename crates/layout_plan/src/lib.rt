//! Layouts: where a program's intervals and its stack lie. They are read, written, checked and made.
#![tactic(auto)]

mod check;
mod default;
mod fault;
mod index;
pub mod laws;
mod line;
mod modules;
mod placing;
mod printing;
mod reading;
mod shapes;
mod spots;

pub use check::check_layout;
pub use default::default_layout;
pub use fault::LayoutFault;
pub use line::{LayoutLine, StackAt};
pub use modules::shape;
pub use placing::{needed, new_size, placed_at};
pub use printing::print_layout;
pub use reading::read_layout;
pub use shapes::program_shape;
pub use sym_expr::{Layout, PlaceAt, Shape, ShapeSpot, Spot};
