//! The keys of a session with their counts, and the ring of all keys that came into use (RFC 3711,
//! 3.2.1, 8.1 and 9.2).
#![tactic(auto)]

mod index;
mod indexes;
mod installed_key;
mod key_set;
mod live_key;
mod part;
mod prepared_key;
mod ring;
mod search;
mod spec;

pub use key_set::{KeySet, OpenKeyFault, Spent};
pub use live_key::LiveKey;
pub use ring::{Ring, RingFault};
pub use sg_base::Admit;
pub use spec::SessionSpec;
