//! From which side an offer comes.

ghost use Rattle.std.specs.Prelude.{◌≡◌};
ghost use Rattle.sg_agreement.specs.Sides.{side_of};

use sg_base::{Identity, Side};

/// From which side an offer comes. The secure side is then keyed by what the offer has or, where it comes from the
/// plain side, by crypto lines or by a MIKEY message to this peer, as the caller says.
#[derive(Drop)]
pub enum Way {
    FromSecure,
    SdesFromPlain,
    MikeyFromPlain(Identity),
}

impl Way {
    /// The side that the offer comes from.
    pub fn side(&self) -> Side
        ensures { result ≡ side_of self.now }
    {
        match self {
            Way::FromSecure => Side::Secure,
            Way::SdesFromPlain => Side::Plain,
            Way::MikeyFromPlain(_) => Side::Plain,
        }
    }
}
