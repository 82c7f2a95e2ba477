//! Script lines: what the gateway is told.
#![tactic(auto)]

mod faults;
pub mod field_printing;
pub mod fields;
mod laws;
mod line_printing;
mod lines;
pub mod reading;

pub use faults::{ReadLineFault, WORD};
pub use laws::{lines_are_framed, lines_have_one_spelling};
pub use line_printing::print_line;
pub use lines::{KeptSignal, Line, Signal};
pub use reading::read_line;
