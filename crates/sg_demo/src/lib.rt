//! Peers of the gateway and their traffic, drawn from a number; and what the gateway made of it, counted.
#![tactic(auto)]

mod action;
mod caller;
mod counting;
mod demonstration;
mod origin;
mod packets;
mod round;
mod showing;
mod state;
mod summary;
mod text;
mod words;

pub use demonstration::traffic;
pub use showing::demo;
pub use summary::Summary;
pub use text::summary_text;
