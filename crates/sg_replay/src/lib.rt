//! The replay list of a stream (RFC 3711, 3.3.2): the indices that were done, as far back as its
//! window goes.
#![tactic(auto)]

mod laws;
mod marks;
mod row;
mod seen;

pub use laws::{fresh_law, highest_law};
pub use seen::{Freshness, Seen};
