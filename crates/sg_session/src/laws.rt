//! The laws of one session.

ghost use Rattle.std.specs.Prelude.{◌≡◌, ◌≤◌, ℕ, List, [], length, true, Ok};
ghost use Rattle.std.specs.List.{Any};
ghost use Rattle.sg_session.specs.OneSession.{opened_all, sealed_all, NoneTwiceIn, HaveOwnNumbers, IsWithinLives};
ghost use Rattle.sg_session.specs.Opening.{Check, checked, opens, packet_of};
ghost use Rattle.sg_session.specs.Reach.{Sealed, IsSealed, IsAt, IsSound, IsWithinReach, CanBeSealed, taken_under, taken_of, text_in, without_mki};
ghost use Rattle.sg_session.specs.Sealing.{seals};
ghost use Rattle.sg_session.specs.Session.{Key, Session, is_live};

/// The sealing of a packet within reach, under a live key of the session, opens as that very packet at
/// that index. A datagram that is a sealing in all but its MKI is read as the packet that was sealed. And
/// the sealing of a packet of at most 4,096 octets is no longer than the longest datagram.
pub fn sealed_is_opened()
    ensures opens { (s : Session) (k : Key) (x : Sealed) → IsSound s → IsSealed x → s.name.kind ≡ x.kind → Any (λ l. l ≡ k) s.keys
        → is_live s k ≡ true → k.master ≡ x.master → IsWithinReach s x → opens s (text_in s k.mki x) ≡ Ok (taken_of k x) }
    ensures reads { (s : Session) (d : List ℕ) (k : Check) (x : Sealed) → IsSound s → IsSealed x → checked s d ≡ Ok k
        → IsAt k.key.master s.name.kind k.head.ssrc k.index x → text_in s [] x ≡ without_mki s d → packet_of s k d ≡ x.packet }
    ensures fits { (s : Session) (mki : List ℕ) (x : Sealed) → IsSound s → IsSealed x → s.name.kind ≡ x.kind → length mki ≤ 128
        → length x.packet ≤ 4096 → length (text_in s mki x) ≤ 4238 }
{}

/// No session opens, and none seals, one source and index twice, whatever comes.
pub fn none_twice_in_a_session()
    ensures opening { (s : Session) (datagrams : List (List ℕ)) → NoneTwiceIn s → NoneTwiceIn (opened_all s datagrams) }
    ensures sealing { (s : Session) (packets : List (List ℕ)) → NoneTwiceIn s → NoneTwiceIn (sealed_all s packets) }
{}

/// A packet that can be sealed is sealed, at its index, under a live key of the session.
pub fn what_can_be_sealed_is()
    ensures { (s : Session) (ssrc index : ℕ) (p : List ℕ) → IsSound s → CanBeSealed s ssrc index p
        → Any (λ k. (is_live s k ≡ true) × (seals s p ≡ Ok (taken_under k ssrc index p))) s.keys }
{}

/// No key serves more packets than its life, whatever comes.
pub fn no_key_past_its_life()
    ensures opening { (s : Session) (datagrams : List (List ℕ)) → HaveOwnNumbers s.keys → IsWithinLives s → IsWithinLives (opened_all s datagrams) }
    ensures sealing { (s : Session) (packets : List (List ℕ)) → HaveOwnNumbers s.keys → IsWithinLives s → IsWithinLives (sealed_all s packets) }
{}
