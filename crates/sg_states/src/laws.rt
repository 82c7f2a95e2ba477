//! The laws that tie the states to what a session opens and seals.

ghost use Rattle.std.specs.Prelude.{◌≡◌, ◌<◌, ℕ, Bool, false, List, length};
ghost use Rattle.sg_base.specs.declared.addresses.Kind.{Kind};
ghost use Rattle.sg_base.specs.declared.addresses.Kind.TheVariants as kind;
ghost use Rattle.sg_session.specs.Opening.{opens};
ghost use Rattle.sg_session.specs.Sealing.{seals};
ghost use Rattle.sg_session.specs.Session.{Session};
ghost use Rattle.sg_states.specs.Headers.{with_encrypting};
ghost use Rattle.sg_states.specs.Parts.{heading, heading_out};
ghost use Rattle.sg_states.specs.Steps.{done_of, opening_steps, sealing_steps, text_of};

/// What the states' clauses say, taken in their order, is what a session opens and what it seals (RFC
/// 3711, 3.3 and 3.4): the head, the source, the key by its MKI, the index, the tag, the room, the packet;
/// and the head, the source, its room, the key, the index, the datagram. The first cause is the session's.
pub fn states_in_turn()
    ensures opening { (s : Session) (d : List ℕ) → opening_steps s d ≡ done_of (opens s d) }
    ensures sealing { (s : Session) (p : List ℕ) → 0 < length s.keys → sealing_steps s p ≡ text_of s (seals s p) }
{}

/// Whether a packet is encrypted is said only where it is decrypted or sealed: a head says all else alike,
/// and a datagram of RTCP says it itself (RFC 3711, 3.4).
pub fn heads_alike()
    ensures rtp { (e : Bool) (m t : ℕ) (d : List ℕ) → heading kind.Rtp e m t d ≡ with_encrypting e (heading kind.Rtp false m t d) }
    ensures rtcp { (e : Bool) (m t : ℕ) (d : List ℕ) → heading kind.Rtcp e m t d ≡ heading kind.Rtcp false m t d }
    ensures out { (kind : Kind) (e : Bool) (p : List ℕ) → heading_out kind e p ≡ with_encrypting e (heading_out kind false p) }
{}
