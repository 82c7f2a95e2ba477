//! A table, and which of its calls are joined: what is opened in the one of two joined calls is sealed in the other, or lost.
//! Nothing is written or sent here.
#![tactic(auto)]

mod switchboard;
mod switched;

pub use switchboard::Switchboard;
pub use switched::{Switched, SwitchedEnd};
