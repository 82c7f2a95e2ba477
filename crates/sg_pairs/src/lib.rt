//! Calls that are joined: what the peer of the one seals is opened, goes on to the other call, and is sealed
//! for its peer, or lost.
#![tactic(auto)]

mod bridge;
mod faults;
mod laws;
mod lines;
mod members;
mod outcome_reading;
mod outcomes;
mod printing;
mod reading;

pub use bridge::Bridge;
pub use faults::JoinFault;
pub use laws::{
    bridge_outcomes_have_one_spelling, each_line_happens, joined_calls_stay_inside,
    joined_ports_go_both_ways, joins_have_their_causes, lost_is_refused, lost_shows_its_cause,
    members_are_the_calls, pairs_last_until_parted, signals_are_told, the_bridge_holds,
    unjoined_calls_are_told_as_they_are,
};
pub use lines::BridgeLine;
pub use members::{Member, Pair, Party};
pub use outcome_reading::read_bridge_outcome;
pub use outcomes::BridgeOutcome;
pub use printing::{print_bridge, push_bridge_outcome};
pub use reading::read_bridge_line;
