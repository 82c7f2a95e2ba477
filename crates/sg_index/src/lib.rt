//! The index of an SRTP packet, found from its number and the highest index (RFC 3711, 3.3.1).
#![tactic(auto)]

mod laws;
mod place;

pub use laws::{nearest_law, reach_law};
pub use place::Place;
