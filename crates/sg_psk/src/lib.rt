//! The pre-shared-key exchange of MIKEY, from either end (RFC 3830, 3.1).
#![tactic(auto)]

mod accepting;
mod envelope;
mod faults;
mod key_data;
mod laws;
mod own_policy;
mod pairs;
mod parts;
mod replays;
mod sending;
mod stamps;

pub use accepting::{Initial, read_initial};
pub use faults::PskError;
pub use laws::exchange_is_accepted;
pub use own_policy::default_policy;
pub use pairs::{Pair, PskBook};
pub use replays::{Noted, ReplayBook};
pub use sending::{Waiting, initiate, read_response, respond};
pub use sg_base::Identity;
