//! The lines of a script and the lines of outcomes: what the gateway is told and what it tells, by the names under which
//! users know them. The lines of scripts are `sg_lines`'s, the outcomes `sg_outcome`'s.
#![tactic(auto)]

pub use sg_base::ScriptFault;
pub use sg_lines::{KeptSignal, Line, ReadLineFault, Signal, print_line, read_line};
pub use sg_outcome::{Outcome, Why, print_outcome, read_outcome};
