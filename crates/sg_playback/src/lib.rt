//! The command `replay`: a script is played, its datagrams in batches that workers share out. A `Player` plays other kinds
//! of scripts, and ticks and datagrams of another source than a script, too.
#![tactic(auto)]

mod player;
mod playing;
mod replaying;
mod writing;

pub use player::{Player, Workers};
pub use playing::{PlayedLine, play_lines};
pub use replaying::replay;
