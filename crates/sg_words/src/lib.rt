//! The words of the command line: the command that they are, or that they are none.
#![tactic(auto)]

mod command;
mod line;
mod reading;
mod spelling;

pub use command::{Command, CommandFault};
pub use reading::read_command;
