//! Why calls aren't joined, or why a call isn't parted from another.

ghost use Rattle.std.specs.Prelude.{◌≡◌};
ghost use Rattle.sg_pairs.specs.Faults.{join_fault_number};

use sg_base::CallId;

/// Why two calls aren't joined, or why a call isn't parted.
#[derive(Clone, Copy, PartialEq, Eq)]
pub enum JoinFault {
    /// No call has this number.
    CallUnknown,
    /// The two are one call.
    Same,
    /// The call has no sessions yet.
    Unready,
    /// The call is joined with this one.
    Joined { with: CallId },
    /// The calls have different numbers of media.
    MediaCount,
    /// The call isn't joined.
    NotJoined,
}

impl JoinFault {
    /// The fault's number, from 1, in the order in which they are tried.
    pub fn number(self) -> u8
        ensures { result ≡ join_fault_number self }
    {
        match self {
            JoinFault::CallUnknown => 1,
            JoinFault::Same => 2,
            JoinFault::Unready => 3,
            JoinFault::Joined { .. } => 4,
            JoinFault::MediaCount => 5,
            JoinFault::NotJoined => 6,
        }
    }
}
