//! Names of peers, and noise.

ghost use Rattle.std.specs.Prelude.{◌≡◌, ◌≤◌, ◌↔◌, length, IsTrue, IsSome, IfSome};
ghost use Rattle.std.specs.List.{list_all};
ghost use Rattle.sg_base.specs.Identities.{is_identity, is_printing};

use arrayvec::ArrayVec;
use std::marker::Model;

/// The name of a peer of a pre-shared key: 1 to 128 printing characters without a space, seen as
/// their octets.
#[derive(Drop)]
pub struct Identity {
    octets: ArrayVec<u8, 128>,
}

impl Model for Identity {
    ghost use Rattle.std.specs.Prelude.{ℕ, List, IsTrue};
    ghost use Rattle.sg_base.specs.Identities.{is_identity};

    ghost Value = { List ℕ };

    ghost view = { λ i. i.octets.items };

    ghost invariant = { λ i. IsTrue (is_identity i.octets.items) };
}

fn all_printing(octets: &[u8]) -> bool
    ensures { result ≡ list_all is_printing octets.now }
{
    octets.iter().all(|octet| 0x21 <= *octet && *octet <= 0x7e)
}

fn is_name(octets: &[u8]) -> bool
    ensures { result ≡ is_identity octets.now }
{
    let fits = 1 <= octets.len() && octets.len() <= 128;
    fits && all_printing(octets)
}

fn bounded_name(octets: &[u8]) -> ArrayVec<u8, 128>
    requires { length octets.now ≤ 128 }
    ensures { result.items ≡ octets.now }
{
    let mut list = ArrayVec::new();
    let _ = list.try_extend_from_slice(octets);
    list
}

impl Identity {
    /// The name of these octets; none exactly where they aren't 1 to 128 octets of hex 21 to 7e.
    pub fn new(octets: &[u8]) -> Option<Identity>
        ensures valid { IsSome result ↔ IsTrue (is_identity octets.now) }
        ensures value { IfSome result (λ i. i ≡ octets.now) }
    {
        if !is_name(octets) {
            return None;
        }
        Some(Identity {
            octets: bounded_name(octets),
        })
    }

    /// The octets as a slice.
    pub fn as_slice(&self) -> &[u8]
        ensures value { result.now ≡ self.now }
        ensures valid { IsTrue (is_identity self.now) }
    {
        self.octets.as_slice()
    }
}

/// The noise that one signal takes: 304 octets.
#[derive(Drop)]
pub struct Noise304(pub [u8; 304]);
