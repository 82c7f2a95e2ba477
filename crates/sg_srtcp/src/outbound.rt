//! Sealing an RTCP packet, state by state: once it has its index, it must be sealed.

use sg_srtp::kinds::{Rtcp, Typed};
use sg_srtp::outbound::Plain;
use sg_states::outbound as states;
pub use sg_states::outbound::Sealed;

/// A plain packet that arrived, of at most 4,096 octets.
pub type Arrived = Typed<Plain, Rtcp>;

/// A plain packet whose head is read.
pub type Headed = Typed<states::Headed, Rtcp>;

/// A packet that has its index and its key, which are spent. It can't be dropped: it must be sealed.
pub type Numbered = Typed<states::Numbered, Rtcp>;
