//! Pre-shared keys, and the book that holds them (RFC 3830, 3.1).

ghost use Rattle.std.specs.Prelude.{◌≡◌, ◌≤◌, ◌<◌, ◌∷◌, ◌++◌, [], Err, Some, length, position, slice_get, false, IfOk, IfErr, IfSome, IsTrue, OnOk, OnErr};
ghost use Rattle.std.specs.List.{find};
ghost use Rattle.sg_base.specs.Octets.{same_octets};
ghost use Rattle.sg_base.specs.declared.faults.Fault.TheVariants as faults;
ghost use Rattle.sg_base.specs.declared.faults.Refusal.TheVariants as refusals;
ghost use Rattle.sg_psk.specs.Pairs.{IsAt, has_pair, is_of, is_with, pair_of, pair_with};

use sg_base::{Fault, Identity, NoMemory, Octets, PAIRS_MOST, Refusal};
use std::alloc::Global;
use std::marker::Model;

/// A key between the gateway's own name and a peer's. It has no `Debug`, so that no text shows the key.
#[derive(Drop)]
pub struct Pair {
    pub own: Identity,
    pub peer: Identity,
    pub key: Octets,
}

/// The pairs, seen as their list in the order in which they came; at most 64.
#[derive(Drop)]
pub struct PskBook {
    pairs: Vec<Pair>,
}

impl Model for PskBook {
    ghost use Rattle.std.specs.Prelude.{List, ◌≤◌, vec_len};
    ghost use Rattle.sg_psk.specs.declared.pairs.Pair.{Pair};

    ghost Value = { List Pair };

    ghost view = { λ b. b.pairs.items };

    ghost invariant = { λ b. vec_len b.pairs ≤ 64 };
}

/// Whether two lists of octets are the same.
pub(crate) fn is_same(a: &[u8], b: &[u8]) -> bool
    ensures { result ≡ same_octets a.now b.now }
{
    a == b
}

fn is_with(peer: &[u8], pair: &Pair) -> bool
    ensures { result ≡ is_with peer.now pair.now }
{
    is_same(pair.peer.as_slice(), peer)
}

fn is_of(own: &[u8], peer: &[u8], pair: &Pair) -> bool
    ensures { result ≡ is_of own.now peer.now pair.now }
{
    is_same(pair.own.as_slice(), own) && is_with(peer, pair)
}

// A copy of the name; no memory is taken.
pub(crate) fn copy_of(name: &Identity) -> Identity
    ensures { result ≡ name.now }
{
    match Identity::new(name.as_slice()) {
        Some(copy) => copy,
        None => unreachable!(),
    }
}

fn pair_of(alloc: Global, own: &Identity, peer: &Identity, key: &[u8]) -> Result<Pair, NoMemory>
    ensures { IfOk result (λ p. p ≡ pair_of own.now peer.now key.now) }
{
    Ok(Pair {
        own: copy_of(own),
        peer: copy_of(peer),
        key: Octets::copy_of(alloc, key)?,
    })
}

// A position in the book as it is kept.
fn place_at(position: Option<usize>) -> Option<u8>
    requires { IfSome position (λ p. p < 64) }
    ensures { result ≡ position }
{
    match position {
        Some(place) => Some(place as u8),
        None => None,
    }
}

impl PskBook {
    /// An empty book; no memory is taken.
    pub fn make(alloc: Global) -> PskBook
        ensures { result ≡ [] }
    {
        PskBook {
            pairs: Vec::new(alloc),
        }
    }

    /// The pairs as a slice.
    pub fn pairs(&self) -> &[Pair]
        ensures value { result.now ≡ self.now }
        ensures most { length self.now ≤ 64 }
    {
        self.pairs.as_slice()
    }

    fn has(&self, own: &Identity, peer: &Identity) -> bool
        ensures { result ≡ has_pair self.now own.now peer.now }
    {
        self.place_of(own.as_slice(), peer.as_slice()).is_some()
    }

    /// The pair at a position.
    pub(crate) fn pair(&self, place: u8) -> &Pair
        requires { place < length self.now }
        ensures { slice_get self.now place ≡ Some result.now }
    {
        &self.pairs[usize::from(place)]
    }

    fn position_with(&self, peer: &[u8]) -> Option<usize>
        ensures value { result ≡ position (is_with peer.now) self.now }
        ensures within { IfSome result (λ p. p < 64) }
    {
        let pairs = self.pairs.as_slice();
        pairs.iter().position(|pair| is_with(peer, pair))
    }

    fn position_of(&self, own: &[u8], peer: &[u8]) -> Option<usize>
        ensures value { result ≡ position (is_of own.now peer.now) self.now }
        ensures within { IfSome result (λ p. p < 64) }
    {
        let pairs = self.pairs.as_slice();
        pairs.iter().position(|pair| is_of(own, peer, pair))
    }

    /// The position of the first pair with a peer.
    pub(crate) fn place_with(&self, peer: &[u8]) -> Option<u8>
        ensures { IsAt self.now result (pair_with self.now peer.now) }
    {
        place_at(self.position_with(peer))
    }

    /// The position of the first pair of two names.
    pub(crate) fn place_of(&self, own: &[u8], peer: &[u8]) -> Option<u8>
        ensures { IsAt self.now result (find (is_of own.now peer.now) self.now) }
    {
        place_at(self.position_of(own, peer))
    }

    /// Puts a pair behind the others. `PskKnown` where one of these two names is there, else `PskFull`
    /// where 64 are there; neither needs memory. After a refusal the book is as it was.
    pub fn add(
        &mut self,
        alloc: Global,
        own: &Identity,
        peer: &Identity,
        key: &[u8],
    ) -> Result<(), Fault>
        ensures known { IsTrue (has_pair self.old own.now peer.now) → result ≡ Err (faults.Refused refusals.PskKnown) }
        ensures full { has_pair self.old own.now peer.now ≡ false → 64 ≤ length self.old → result ≡ Err (faults.Refused refusals.PskFull) }
        ensures room { has_pair self.old own.now peer.now ≡ false → length self.old < 64 → IfErr result (λ e. e ≡ faults.NoMemory) }
        ensures added { OnOk result (self.new ≡ self.old ++ pair_of own.now peer.now key.now ∷ []) }
        ensures kept { OnErr result (self.new ≡ self.old) }
    {
        if self.has(own, peer) {
            return Err(Fault::Refused(Refusal::PskKnown));
        }
        if self.pairs.len() >= PAIRS_MOST {
            return Err(Fault::Refused(Refusal::PskFull));
        }
        let Ok(pair) = pair_of(alloc, own, peer, key) else {
            return Err(Fault::NoMemory);
        };
        if self.pairs.push(pair).is_err() {
            return Err(Fault::NoMemory);
        }
        Ok(())
    }
}
