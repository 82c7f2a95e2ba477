//! The table of calls, and before it the legs that share their ports where they may (RFC 5761): what comes and what
//! leaves goes by other ports there, and nothing else changes.
#![tactic(auto)]

mod front;
mod shared;

pub use front::Front;
