//! Outcome lines: what the gateway tells.
#![tactic(auto)]

mod causes;
mod laws;
mod outcome_names;
mod outcome_reading;
mod outcomes;
mod printing;

pub use laws::outcomes_have_one_spelling;
pub use outcome_reading::read_outcome;
pub use outcomes::{Outcome, Why};
pub use printing::{print_outcome, push_out, push_outcome};
