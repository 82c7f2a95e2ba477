//! A line of a bridge's script.

use sg_base::CallId;
use sg_lines::Line;

/// What a line of a bridge's script says.
#[derive(Drop)]
pub enum BridgeLine {
    /// What a line of every script may say.
    Script(Line),
    /// Two calls are to be joined.
    Join { first: CallId, second: CallId },
    /// A call is to be parted from the one with which it is joined.
    Part { call: CallId },
}
