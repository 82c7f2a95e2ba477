//! Laws of the definition, for callers' proofs: each function's contract is a law, and its body is empty.

ghost use Rattle.std.specs.Prelude.{◌≡◌, ◌<◌, ℕ, length, All, true, false};
ghost use Rattle.sg_base.specs.Keys.{Master};
ghost use Rattle.sg_kdf.specs.SessionKeys.{AreKeysOf, is_raw, session_keys};

/// Session keys have the lengths that the suite says, whatever the master key's lists are.
pub fn keys_have_their_lengths()
    ensures rtp { (master : Master) → AreKeysOf master.suite (session_keys master).rtp }
    ensures rtcp { (master : Master) → AreKeysOf master.suite (session_keys master).rtcp }
{}

/// Under each suite that encrypts both encryption keys have octets.
pub fn encryption_keys_are_not_empty()
    ensures rtp { (master : Master) → is_raw master.suite ≡ false
        → 0 < length (session_keys master).rtp.encrypt }
    ensures rtcp { (master : Master) → is_raw master.suite ≡ false
        → 0 < length (session_keys master).rtcp.encrypt }
{}

/// A raw key of 20 octets is the authentication key itself.
pub fn raw_key_is_the_authentication_key()
    ensures { (master : Master) → is_raw master.suite ≡ true → length master.key ≡ 20
        → All (λ octet. octet < 256) master.key → (session_keys master).rtp.auth ≡ master.key }
{}
