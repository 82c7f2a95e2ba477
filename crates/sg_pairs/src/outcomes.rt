//! What a bridge tells.

use crate::faults::JoinFault;
use sg_base::{CallId, DropCause};
use sg_outcome::Outcome;

/// What a bridge tells.
#[derive(Drop)]
pub enum BridgeOutcome {
    /// What the table tells.
    Table(Outcome),
    /// Two calls are joined.
    Joined { first: CallId, second: CallId },
    /// Two calls that were joined aren't any more.
    Parted { first: CallId, second: CallId },
    /// A call isn't joined, or isn't parted.
    Unjoined { call: CallId, cause: JoinFault },
    /// What was opened in the other call isn't sealed at this plain port.
    Lost { port: u16, cause: DropCause },
}
