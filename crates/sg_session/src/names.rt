//! What names a session, and whose a key is.

ghost use Rattle.std.specs.Prelude.{◌≡◌};

use sg_base::Kind;

/// Whether a session opens what the peer has sealed, or seals for the peer.
#[derive(Clone, Copy, PartialEq, Eq)]
pub enum Direction {
    Opening,
    Sealing,
}

impl Direction {
    /// The direction of the packets that go the other way.
    pub fn other(self) -> Direction
        ensures opening { self ≡ Direction.Opening → result ≡ Direction.Sealing }
        ensures sealing { self ≡ Direction.Sealing → result ≡ Direction.Opening }
    {
        match self {
            Direction::Opening => Direction::Sealing,
            Direction::Sealing => Direction::Opening,
        }
    }
}

/// Whose a key is: the number of calls that were made before its call, the medium, the generation and
/// the direction. A call's id isn't a name, since an id may be used again.
#[derive(Clone, Copy, PartialEq, Eq)]
pub struct Owner {
    pub call: u64,
    pub medium: u8,
    pub generation: u32,
    pub direction: Direction,
}

/// A session is named by the owner of its keys and by its kind.
#[derive(Clone, Copy, PartialEq, Eq)]
pub struct Name {
    pub owner: Owner,
    pub kind: Kind,
}
