//! Octets in memory.

ghost use Rattle.std.specs.Prelude.{◌≡◌, IfOk};

use crate::NoMemory;
use std::alloc::Global;
use std::marker::Model;

/// Octets in memory, seen as their list.
#[derive(Drop)]
pub struct Octets {
    octets: Vec<u8>,
}

impl Model for Octets {
    ghost use Rattle.std.specs.Prelude.{ℕ, List};

    ghost Value = { List ℕ };

    ghost view = { λ o. o.octets.items };
}

impl Octets {
    /// The vector's octets; it doesn't allocate.
    pub fn from_vec(octets: Vec<u8>) -> Octets
        ensures { result ≡ octets.items }
    {
        Octets { octets }
    }

    /// A copy of the octets.
    pub fn copy_of(alloc: Global, octets: &[u8]) -> Result<Octets, NoMemory>
        ensures { IfOk result (λ o. o ≡ octets.now) }
    {
        Ok(Octets {
            octets: octets.to_vec(alloc)?,
        })
    }

    /// The octets as a slice.
    pub fn as_slice(&self) -> &[u8]
        ensures { result.now ≡ self.now }
    {
        self.octets.as_slice()
    }

    /// The octets as a vector; it doesn't allocate.
    pub fn into_vec(self) -> Vec<u8>
        ensures { result.items ≡ self }
    {
        let Octets { octets } = self;
        octets
    }
}
