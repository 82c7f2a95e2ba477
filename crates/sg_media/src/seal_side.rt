//! The sealing side of a session.

ghost use Rattle.std.specs.Prelude.{◌≡◌, ◌≤◌, List, length, IfOk, IfErr, MatchResult, Err};
ghost use Rattle.sg_media.specs.Ciphers.{EachEncrypts};
ghost use Rattle.sg_media.specs.Steps.{HasDone, SideTakes, side_seals};

use crate::faults::of_head;
use crate::outbound::Sealed;
use crate::sealing::seal_among;
use crate::streams::{Streams, admits};
use sg_base::{DropCause, Kind, Pad};
use sg_keys::{Admit, KeySet, SessionSpec};
use sg_states::outbound::Headed;
use std::marker::Model;

/// What seals the packets of a session (RFC 3711, 3.3 and 3.4): its keys with their counts, and a stream
/// for each of its sources.
#[derive(Drop)]
pub struct SealSide {
    kind: Kind,
    roc: u32,
    window: u16,
    admit: Admit,
    encrypts: bool,
    tag_len: usize,
    keys: KeySet,
    streams: Streams,
}

impl Model for SealSide {
    ghost use Rattle.sg_media.specs.Sides.{SideValue, IsSide};

    ghost Value = { SideValue };

    ghost view = { λ s. record {
      kind = s.kind;
      keys = s.keys;
      streams = s.streams.list.items;
      roc = s.roc;
      window = s.window;
      admit = s.admit;
      encrypts = s.encrypts;
      tag_len = s.tag_len;
    } };

    ghost invariant = { λ s. IsSide s.keys s.streams.list.items s.streams.row.items s.kind s.window s.encrypts s.tag_len };
}

impl SealSide {
    ghost use Rattle.sg_session.specs.OneSession.{after};
    ghost use Rattle.sg_session.specs.Sealing.{seals};
    ghost use Rattle.sg_session.specs.Session.{Done, Session};
    ghost use Rattle.sg_media.specs.Accepting.{IsAdmitted, IsMadeOf};
    ghost use Rattle.sg_media.specs.Answers.{entry_out, sealed_of, told_of};
    ghost use Rattle.sg_media.specs.Sides.{CanBeMade, StandsFor, side_of};

    /// The side of a session in which nothing is done: of keys that have not served, each with a cipher's
    /// key where something may be encrypted; of a window of 64 to 1,024 indices, and of a tag of ten octets
    /// or, for RTP alone, of four.
    pub fn make(spec: SessionSpec) -> SealSide
        requires { CanBeMade spec }
        ensures value { result ≡ side_of spec }
        ensures stands { (s : Session) → IsMadeOf s spec → StandsFor result s }
    {
        let SessionSpec {
            kind,
            keys,
            roc,
            window,
            admit,
            encrypt,
            tag_len,
        } = spec;
        prove!(keys.count() > 0);
        SealSide {
            kind,
            keys,
            streams: Streams::new(),
            roc,
            window,
            admit,
            encrypts: encrypt,
            tag_len: usize::from(tag_len),
        }
    }

    // The packet with its head read and its source admitted, or the first cause.
    fn admit(&self, pad: Pad) -> Result<Headed, (Pad, DropCause)>
        requires { length pad ≤ 4096 }
        ensures told { (done : List Done) → HasDone self.now done
            → MatchResult result (IsAdmitted self.now done pad) (λ e. (e.0 ≡ pad) × (side_seals self.now done pad ≡ Err e.1)) }
        ensures back { MatchResult result (λ h. (h.pad ≡ pad) × (h.kind ≡ self.now.kind)) (λ e. e.0 ≡ pad) }
        ensures encrypts { IfOk result (λ h. EachEncrypts self.now.keys h.head.encrypted) }
    {
        let headed = match Headed::read(self.kind, self.encrypts, pad) {
            Ok(headed) => headed,
            Err((pad, fault)) => return Err((pad, of_head(fault))),
        };
        if !admits(self.admit, self.streams.row.as_slice(), headed.ssrc()) {
            return Err((headed.refuse(), DropCause::SsrcUnknown));
        }
        Ok(headed)
    }

    /// Seals a packet of at most 4,096 octets, or hands it back with the first cause that holds: of
    /// Short, Version, CsrcCut, ExtensionCut, SsrcUnknown, StreamsFull, KeySpent, then for RTP BeforeFirst,
    /// IndexSpent, TooOld and Repeat, and for RTCP RtcpIndexSpent. A packet that is handed back changes
    /// nothing.
    pub fn send(&mut self, pad: Pad) -> Result<Sealed, (Pad, DropCause)>
        requires { length pad ≤ 4096 }
        ensures answer { (s : Session) → StandsFor self.old s → result ≡ sealed_of s pad (seals s pad) }
        ensures steps { (done : List Done) → HasDone self.old done → result ≡ told_of self.old.kind pad (side_seals self.old done pad) }
        ensures takes { IfOk result (λ o. SideTakes self.old self.new (entry_out pad o)) }
        ensures refused { IfErr result (λ e. (e.0 ≡ pad) × (self.new ≡ self.old)) }
        ensures after { (s : Session) → StandsFor self.old s → StandsFor self.new (after s (seals s pad)) }
    {
        let headed = match self.admit(pad) {
            Ok(headed) => headed,
            Err(refused) => return Err(refused),
        };
        match seal_among(
            headed,
            &mut self.streams,
            &mut self.keys,
            self.tag_len,
            self.roc,
            self.window,
        ) {
            Ok(sealed) => Ok(sealed),
            Err(refused) => Err(refused),
        }
    }
}
