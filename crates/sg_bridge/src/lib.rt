//! The command `bridge`: a script is played in which calls can be joined, one event at a time.
#![tactic(auto)]

mod bridging;
mod laws;
mod player;
mod telling;

pub use bridging::bridge;
pub use laws::scripts_without_joins_are_replayed;
