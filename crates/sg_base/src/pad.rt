//! The one buffer that a datagram lives in.

ghost use Rattle.std.specs.Prelude.{◌≡◌, ◌+◌, ◌<◌, ◌≤◌, [], ◌++◌, length, take, IfOk, OnOk, OnErr, IsErr, ◌↔◌};
ghost use Rattle.std.specs.Borrow.{sem};
ghost use Rattle.sg_base.specs.Pads.{LendsOctets};

use crate::{NoMemory, PAD_MOST};
use std::alloc::Global;
use std::marker::Model;

/// A datagram has more octets than a pad can hold.
#[derive(Clone, Copy, PartialEq, Eq)]
pub struct TooLong;

/// One buffer of 4,352 octets, seen as its used octets. Only `make` allocates.
#[derive(Drop)]
pub struct Pad {
    octets: Vec<u8>,
}

impl Model for Pad {
    ghost use Rattle.std.specs.Prelude.{ℕ, List, ◌≤◌, vec_capacity, vec_len};

    ghost Value = { List ℕ };

    ghost view = { λ p. p.octets.items };

    ghost invariant = { λ p. (4352 ≤ vec_capacity p.octets) × (vec_len p.octets ≤ 4352) };
}

impl Pad {
    /// An empty pad. Whether there is memory for it is left open.
    pub fn make(alloc: Global) -> Result<Pad, NoMemory>
        ensures { IfOk result (λ pad. pad ≡ []) }
    {
        Ok(Pad {
            octets: Vec::with_capacity(alloc, PAD_MOST)?,
        })
    }

    /// The used octets become these. A longer datagram leaves the pad as it is.
    pub fn fill(&mut self, octets: &[u8]) -> Result<(), TooLong>
        ensures too_long { IsErr result ↔ (4352 < length octets.now) }
        ensures ok { OnOk result (self.new ≡ octets.now) }
        ensures err { OnErr result (self.new ≡ self.old) }
    {
        if octets.len() > PAD_MOST {
            return Err(TooLong);
        }
        self.cut_to(0);
        self.append(octets);
        Ok(())
    }

    /// The used octets.
    pub fn octets(&self) -> &[u8]
        ensures same { result.now ≡ self.now }
        ensures most { length self.now ≤ 4352 }
    {
        self.octets.as_slice()
    }

    /// The used octets, to be edited in place; their number stays.
    pub fn octets_mut(&mut self) -> &mut [u8]
        ensures* writes_back { sem 𝓛 (LendsOctets self.entry result) }
        ensures same { result.now ≡ self.old }
        ensures most { length self.old ≤ 4352 }
    {
        self.octets.as_mut_slice()
    }

    /// Puts octets behind the used ones.
    pub fn append(&mut self, octets: &[u8])
        requires { length self.old + length octets.now ≤ 4352 }
        ensures { self.new ≡ self.old ++ octets.now }
    {
        let _ = self.octets.extend_from_slice(octets);
    }

    /// Keeps the first octets alone.
    pub fn cut_to(&mut self, count: usize)
        requires { count ≤ length self.old }
        ensures { self.new ≡ take count self.old }
    {
        self.octets.truncate(count);
    }
}
