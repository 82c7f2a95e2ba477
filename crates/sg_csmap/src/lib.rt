//! What each side sends in the crypto sessions of a MIKEY bundle: keys, sources and protection (RFC 3830, 4.1.3,
//! 6.1.1 and 6.10.1).
#![tactic(auto)]

mod faults;
mod policies;
mod sessions;

pub use faults::CsError;
pub use sessions::{StreamKeys, streams};
