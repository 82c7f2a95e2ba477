//! The opening side of a session.

ghost use Rattle.std.specs.Prelude.{◌≡◌, ◌≤◌, List, IfOk, IfErr, MatchResult, Err};
ghost use Rattle.sg_states.specs.Inbound.{CanServe};
ghost use Rattle.sg_media.specs.Steps.{HasDone, SideTakes, side_opens};

use crate::faults::{of_head, of_key};
use crate::inbound::Opened;
use crate::opening::open_among;
use crate::streams::{Streams, admits};
use sg_base::{DropCause, Kind, Pad};
use sg_keys::{Admit, KeySet, SessionSpec};
use sg_states::inbound::{Headed, Keyed};
use std::marker::Model;

/// What opens the datagrams of a session (RFC 3711, 3.3 and 3.4): its keys with their counts, and a stream
/// for each of its sources.
#[derive(Drop)]
pub struct OpenSide {
    kind: Kind,
    roc: u32,
    window: u16,
    admit: Admit,
    encrypts: bool,
    tag_len: usize,
    keys: KeySet,
    streams: Streams,
}

impl Model for OpenSide {
    ghost use Rattle.sg_media.specs.Sides.{SideValue, IsSide};

    ghost Value = { SideValue };

    ghost view = { λ s. record {
      kind = s.kind;
      keys = s.keys;
      streams = s.streams.list.items;
      roc = s.roc;
      window = s.window;
      admit = s.admit;
      encrypts = s.encrypts;
      tag_len = s.tag_len;
    } };

    ghost invariant = { λ s. IsSide s.keys s.streams.list.items s.streams.row.items s.kind s.window s.encrypts s.tag_len };
}

impl OpenSide {
    ghost use Rattle.sg_session.specs.OneSession.{after};
    ghost use Rattle.sg_session.specs.Opening.{opens};
    ghost use Rattle.sg_session.specs.Session.{Done, Session};
    ghost use Rattle.sg_media.specs.Accepting.{IsAccepted, IsMadeOf};
    ghost use Rattle.sg_media.specs.Answers.{answer_at, entry_of, opened_of};
    ghost use Rattle.sg_media.specs.Sides.{CanBeMade, StandsFor, side_of};

    /// The side of a session in which nothing is done: of keys that have not served, each with a cipher's
    /// key where something may be encrypted; of a window of 64 to 1,024 indices, and of a tag of ten octets
    /// or, for RTP alone, of four.
    pub fn make(spec: SessionSpec) -> OpenSide
        requires { CanBeMade spec }
        ensures value { result ≡ side_of spec }
        ensures stands { (s : Session) → IsMadeOf s spec → StandsFor result s }
    {
        let SessionSpec {
            kind,
            keys,
            roc,
            window,
            admit,
            encrypt,
            tag_len,
        } = spec;
        prove!(keys.count() > 0);
        OpenSide {
            kind,
            keys,
            streams: Streams::new(),
            roc,
            window,
            admit,
            encrypts: encrypt,
            tag_len: usize::from(tag_len),
        }
    }

    // The datagram with its head read, its source admitted and its key chosen, or the first cause.
    fn accept(&self, pad: Pad) -> Result<Keyed, (Pad, DropCause)>
        ensures told { (done : List Done) → HasDone self.now done
            → MatchResult result (IsAccepted self.now done pad) (λ e. (e.0 ≡ pad) × (side_opens self.now done pad ≡ Err e.1)) }
        ensures back { MatchResult result (λ k. (k.headed.pad ≡ pad) × (k.headed.kind ≡ self.now.kind)) (λ e. e.0 ≡ pad) }
        ensures serves { IfOk result (λ k. CanServe self.now.keys k.key k.number k.headed.head.encrypted) }
    {
        let headed = match Headed::read(
            self.kind,
            self.encrypts,
            self.keys.mki_len(),
            self.tag_len,
            pad,
        ) {
            Ok(headed) => headed,
            Err((pad, fault)) => return Err((pad, of_head(fault))),
        };
        if !admits(self.admit, self.streams.row.as_slice(), headed.ssrc()) {
            return Err((headed.refuse(), DropCause::SsrcUnknown));
        }
        match headed.key(&self.keys) {
            Ok(keyed) => Ok(keyed),
            Err((pad, fault)) => Err((pad, of_key(fault))),
        }
    }

    /// Opens a datagram, or hands it back with the first cause that holds: of Short, Version, CsrcCut,
    /// ExtensionCut, SsrcUnknown, MkiUnknown, KeySpent, BeforeFirst, IndexSpent, TooOld, Repeat, BadTag and
    /// StreamsFull. A datagram that is handed back changes nothing.
    pub fn receive(&mut self, pad: Pad) -> Result<Opened, (Pad, DropCause)>
        ensures answer { (s : Session) → StandsFor self.old s → result ≡ opened_of s.name.kind pad (opens s pad) }
        ensures steps { (done : List Done) → HasDone self.old done → result ≡ answer_at self.old.kind pad (side_opens self.old done pad) }
        ensures takes { IfOk result (λ o. SideTakes self.old self.new (entry_of o)) }
        ensures refused { IfErr result (λ e. (e.0 ≡ pad) × (self.new ≡ self.old)) }
        ensures after { (s : Session) → StandsFor self.old s → StandsFor self.new (after s (opens s pad)) }
    {
        let keyed = match self.accept(pad) {
            Ok(keyed) => keyed,
            Err(refused) => return Err(refused),
        };
        match open_among(
            keyed,
            &mut self.streams,
            &mut self.keys,
            self.roc,
            self.window,
        ) {
            Ok(opened) => Ok(opened),
            Err(refused) => Err(refused),
        }
    }
}
