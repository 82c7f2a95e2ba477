//! The table of calls that the gateway runs on: signals make, key and end calls, and datagrams go through them
//! without memory.
#![tactic(auto)]

mod arrival;
mod batch;
mod calls;
mod delivery;
mod ends;
mod laws;
mod octets;
mod outcomes;
mod pairs;
mod places;
mod ports;
mod signals;
mod table;

pub use arrival::Arrival;
pub use laws::{every_order_gives_the_same, only_its_own_call_counts};
pub use outcomes::Outcomes;
pub use sg_call::{End, Handled};
pub use table::Table;
