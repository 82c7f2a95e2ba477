//! Opening an SRTCP datagram, state by state: nothing unverified is decrypted, marked or counted.

use sg_base::Pad;
use sg_srtp::kinds::{Rtcp, Typed};
use sg_states::inbound as states;
pub use sg_states::inbound::Opened;

/// A datagram that arrived, seen as its octets.
pub type Arrived = Typed<Pad, Rtcp>;

/// A datagram whose head is read.
pub type Headed = Typed<states::Headed, Rtcp>;

/// A datagram whose key is chosen.
pub type Keyed = Typed<states::Keyed, Rtcp>;

/// A datagram whose index is new in its stream.
pub type Placed = Typed<states::Placed, Rtcp>;

/// A datagram whose tag fits.
pub type Verified = Typed<states::Verified, Rtcp>;
