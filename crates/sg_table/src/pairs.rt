//! Pre-shared keys.

ghost use Rattle.std.specs.Prelude.{◌≡◌, [], OnOk, OnErr, None};
ghost use Rattle.sg_gateway.specs.Early.{early};
ghost use Rattle.sg_gateway.specs.Signals.{with_pair};
ghost use Rattle.sg_gateway.specs.Signals as signals;
ghost use Rattle.sg_gateway.specs.World.{World};
ghost use Rattle.sg_psk.specs.Pairs.{pair_of};
ghost use Rattle.sg_table.specs.Standing.{TableStandsFor};
ghost use Rattle.sg_table.specs.Telling.{IsAnswered};

use crate::calls::Calls;
use crate::outcomes::Outcomes;
use sg_base::{Fault, Identity, NoMemory};
use sg_outcome::Outcome;
use std::alloc::Global;

impl Calls {
    /// A pre-shared key. Whether one of these names is there, and whether there is room for one more, is told
    /// before memory is taken.
    pub(crate) fn psk(
        &mut self,
        alloc: Global,
        own: &Identity,
        peer: &Identity,
        key: &[u8],
        told: &mut Outcomes,
    ) -> Result<(), NoMemory>
        requires none { told.old.items ≡ [] }
        ensures told { OnOk result ((w : World) → TableStandsFor self.old w → IsAnswered told.new.items self.new (with_pair w (pair_of own.now peer.now key.now))) }
        ensures same { OnErr result (self.new ≡ self.old) }
        ensures needs { OnErr result ((w : World) → TableStandsFor self.old w → early w (signals.Psk (pair_of own.now peer.now key.now)) ≡ None) }
    {
        match self.books.psks.add(alloc, own, peer, key) {
            Ok(()) => Ok(()),
            Err(Fault::Refused(cause)) => {
                told.push(Outcome::Refused { call: None, cause });
                Ok(())
            }
            Err(Fault::NoMemory) => Err(NoMemory),
        }
    }
}
