//! RTP and RTCP on one port (RFC 5761): which legs share a port, by which ports what comes is taken, and by which ports what
//! leaves goes.
#![tactic(auto)]

mod known;
mod laws;
mod legs;
mod mux;
mod signals;
mod texts;

pub use known::Known;
pub use laws::{
    legs_are_muxed_by_their_texts, ports_are_shared_as_told, shared_ports_are_faithful,
    told_texts_are_descriptions,
};
pub use mux::Mux;
