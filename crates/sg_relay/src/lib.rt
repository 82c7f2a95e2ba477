//! The command `relay`: the lines of a script, and at its `tick` lines the datagrams of a link. Its calls may be joined.
#![tactic(auto)]

mod carrying_out;
mod exchange;
mod joined;
mod laws;
mod lines;
mod plain;
mod relaying;
mod turns;

pub use laws::{ports_are_of_calls, ports_of_joined_calls_are_of_calls};
pub use relaying::{RelayOptions, relay, relay_joined};
