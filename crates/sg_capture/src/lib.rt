//! The command `capture`: a script is played, and then the datagrams of the capture behind it.
#![tactic(auto)]

mod capturing;
mod frames;
mod lines;
mod progress;
mod records;

pub use capturing::capture;
