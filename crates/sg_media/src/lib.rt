//! The two sides of a session: what opens its datagrams and what seals its packets. No call takes memory.
#![tactic(auto)]

mod either;
mod faults;
mod inbound;
mod open_side;
mod opening;
mod outbound;
mod seal_side;
mod sealing;
mod streams;

pub use either::{Which, receive_either};
pub use inbound::Opened;
pub use open_side::OpenSide;
pub use outbound::Sealed;
pub use seal_side::SealSide;
