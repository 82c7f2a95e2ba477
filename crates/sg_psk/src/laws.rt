//! The law of the exchange, for callers' proofs: its contract is the law, and its body calls a law alone.

ghost use Rattle.std.specs.Prelude.{◌≡◌, ◌≤◌, ◌<◌, ◌*◌, ◌^◌, ◌∷◌, [], ℕ, List, Ok, Some, false, length};
ghost use Rattle.std.specs.List.{AllByRecursion};
ghost use Rattle.sg_mikey.specs.Reading.{message_of};
ghost use Rattle.sg_mikey.specs.Spelling.{AreOctets};
ghost use Rattle.sg_psk.specs.Accepting.{initial_of};
ghost use Rattle.sg_psk.specs.Ends.{IsSendable, initial_sent, mirrored, note_sent, received, response_sent};
ghost use Rattle.sg_psk.specs.Pairs.{is_noted, pair_named};
ghost use Rattle.sg_psk.specs.Sending.{Sent, answered_map, initial_octets, response_octets, response_of, sent_of};
ghost use Rattle.sg_psk.specs.Stamps.{is_skewed};
ghost use Rattle.sg_psk.specs.declared.pairs.Pair.{Pair};
ghost use Rattle.sg_psk.specs.declared.replays.Noted.{Noted};

use sg_mikey::message_law;

/// What the gateway sends as the initiator is read as that message, and accepted by a responder that has the
/// same key for the two names, where the stamp is near its moment, the message isn't noted and four more have
/// room. It takes the keys that were sent. What such a responder sends is accepted by the initiator.
pub fn exchange_is_accepted()
    ensures sent { (pair : Pair) (now : ℕ) (noise ssrcs : List ℕ)
        → length pair.own ≤ 128 → length pair.peer ≤ 128 → length noise ≡ 304 → AreOctets noise
        → length ssrcs ≤ 127 → AllByRecursion (λ ssrc. ssrc < 2 ^ 32) ssrcs → IsSendable (sent_of pair now noise ssrcs) }
    ensures initial_read { (s : Sent) → IsSendable s → message_of (initial_octets s) ≡ Ok (initial_sent s) }
    ensures initial { (s : Sent) (pairs : List Pair) (kept : List Noted) (now : ℕ) → IsSendable s
        → pair_named pairs (s.pair.own ∷ s.pair.peer ∷ []) ≡ Some (mirrored s.pair) → is_skewed s.stamp now ≡ false
        → is_noted kept (note_sent s) ≡ false → length kept ≤ 1020
        → initial_of (initial_octets s) (initial_sent s) pairs kept now ≡ Ok (received s) }
    ensures response_read { (s : Sent) (ssrcs : List ℕ) → IsSendable s → AllByRecursion (λ ssrc. ssrc < 2 ^ 32) ssrcs
        → message_of (response_octets (received s) ssrcs) ≡ Ok (response_sent (received s) ssrcs) }
    ensures response { (s : Sent) (ssrcs : List ℕ) → IsSendable s → length s.map ≡ 2 * length ssrcs
        → response_of (response_octets (received s) ssrcs) (response_sent (received s) ssrcs) s ≡ Ok (answered_map s.map ssrcs) }
{
    message_law();
}
