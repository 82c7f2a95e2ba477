//! The indexes of the ring's keys.

ghost use Rattle.std.specs.Prelude.{◌≡◌, ◌<◌, [], length, IfSome};
ghost use Rattle.sg_keys.specs.Indexed.{least, first_secret, IsIndexOf, AreIndexesOf};
ghost use Rattle.sg_keys.specs.Reused.{first_from};

use crate::index::Index;
use crate::installed_key::InstalledKey;
use crate::part::Part;
use std::alloc::Global;

/// An index for each part by which keys clash.
#[derive(Drop)]
pub struct Indexes {
    master: Index,
    rtp: Index,
    rtcp: Index,
}

fn least(a: Option<usize>, b: Option<usize>) -> Option<usize>
    ensures { result ≡ least a b }
{
    match (a, b) {
        (None, b) => b,
        (a, None) => a,
        (Some(a), Some(b)) => Some(if b < a { b } else { a }),
    }
}

// The first key whose part of the index is this encryption key, where that isn't empty.
fn first_secret(index: &Index, secret: &[u8], list: &[InstalledKey]) -> Option<usize>
    requires { IsIndexOf index.now.part index.now list.now }
    ensures { result ≡ first_secret index.now.part secret.now 0 list.now }
{
    if secret.is_empty() {
        None
    } else {
        index.find(secret, list)
    }
}

impl Indexes {
    /// Indexes of a list without a key.
    pub fn make(alloc: Global) -> Indexes
        ensures { AreIndexesOf result [] }
    {
        Indexes {
            master: Index::make(Part::Master, alloc),
            rtp: Index::make(Part::Rtp, alloc),
            rtcp: Index::make(Part::Rtcp, alloc),
        }
    }

    /// The first of the list that a key clashes with.
    pub fn first_clash(&self, key: &InstalledKey, list: &[InstalledKey]) -> Option<usize>
        requires { AreIndexesOf self.now list.now }
        ensures first { result ≡ first_from 0 list.now key.now }
        ensures within { IfSome result (λ n. n < length list.now) }
    {
        let rtp = key.part(Part::Rtp);
        let rtcp = key.part(Part::Rtcp);
        let by_rtp = least(
            first_secret(&self.rtp, rtp, list),
            first_secret(&self.rtp, rtcp, list),
        );
        let by_rtcp = least(
            first_secret(&self.rtcp, rtp, list),
            first_secret(&self.rtcp, rtcp, list),
        );
        let by_master = self.master.find(key.part(Part::Master), list);
        least(by_master, least(by_rtp, by_rtcp))
    }

    /// Takes in the keys of the list that they lack, as far as there is memory.
    pub fn extend(&mut self, list: &[InstalledKey])
        requires { AreIndexesOf self.old list.now }
        ensures { AreIndexesOf self.new list.now }
    {
        self.master.extend(list);
        self.rtp.extend(list);
        self.rtcp.extend(list);
    }
}
