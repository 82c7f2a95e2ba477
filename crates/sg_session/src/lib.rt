//! Sessions: what they open and seal, and why they don't (RFC 3711, 3.3).
#![tactic(auto)]

mod laws;
mod names;

pub use laws::{
    no_key_past_its_life, none_twice_in_a_session, sealed_is_opened, what_can_be_sealed_is,
};
pub use names::{Direction, Name, Owner};
