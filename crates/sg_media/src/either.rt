//! A datagram for a call's current generation or the one before.

ghost use Rattle.std.specs.Prelude.{◌≡◌, IfErr, IfOk, List};
ghost use Rattle.sg_session.specs.OneSession.{after};
ghost use Rattle.sg_session.specs.Opening.{opens};
ghost use Rattle.sg_session.specs.Session.{Done, Session};
ghost use Rattle.sg_media.specs.Answers.{answer_at, entry_of, opened_of};
ghost use Rattle.sg_media.specs.Either.{OneTakes, first_opened, if_refused};
ghost use Rattle.sg_media.specs.Sides.{StandsFor};
ghost use Rattle.sg_media.specs.Steps.{HasDone, side_opens};

use crate::{OpenSide, Opened};
use sg_base::{DropCause, Pad};

/// Which of two generations opened a datagram.
#[derive(Clone, Copy, PartialEq, Eq)]
pub enum Which {
    Current,
    Earlier,
}

/// Opens a datagram by the current generation's side, or, where that refuses it, by the earlier one's. Refused by
/// both, it is handed back with the current one's cause, and both are as they were.
pub fn receive_either(
    current: &mut OpenSide,
    earlier: &mut OpenSide,
    pad: Pad,
) -> Result<(Which, Opened), (Pad, DropCause)>
    ensures answer { (s e : Session) → StandsFor current.old s → StandsFor earlier.old e
        → result ≡ first_opened (opened_of s.name.kind pad (opens s pad)) (opened_of e.name.kind pad (opens e pad)) }
    ensures steps { (done before : List Done) → HasDone current.old done → HasDone earlier.old before
        → result ≡ first_opened (answer_at current.old.kind pad (side_opens current.old done pad)) (answer_at earlier.old.kind pad (side_opens earlier.old before pad)) }
    ensures takes { IfOk result (λ o. OneTakes o.0 (entry_of o.1) current.old current.new earlier.old earlier.new) }
    ensures current { (s : Session) → StandsFor current.old s → StandsFor current.new (after s (opens s pad)) }
    ensures earlier { (s e : Session) → StandsFor current.old s → StandsFor earlier.old e
        → StandsFor earlier.new (after e (if_refused (opens s pad) (opens e pad))) }
    ensures refused { IfErr result (λ e. (e.0 ≡ pad) × (current.new ≡ current.old) × (earlier.new ≡ earlier.old)) }
{
    match current.receive(pad) {
        Ok(opened) => Ok((Which::Current, opened)),
        Err((pad, cause)) => match earlier.receive(pad) {
            Ok(opened) => Ok((Which::Earlier, opened)),
            Err((pad, _)) => Err((pad, cause)),
        },
    }
}
