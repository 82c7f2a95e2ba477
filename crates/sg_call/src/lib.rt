//! One call: its state, the routes of its packets and its inbox.
#![tactic(auto)]

mod call;
mod handled;
mod inbox;
mod making;
mod route;
mod routes;
mod state;

pub use call::Call;
pub use handled::{End, Handled};
