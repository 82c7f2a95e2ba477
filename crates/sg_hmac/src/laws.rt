//! The law of the definition, for callers' proofs.

ghost use Rattle.std.specs.Prelude.{◌≡◌, ◌<◌, ℕ, List, All, length};
ghost use Rattle.sg_hmac.specs.Hmac.{hmac_sha1};

/// The law of the definition: HMAC-SHA-1 has 20 octets (RFC 2104, section 2, with L = 20).
pub fn hmac_sha1_length()
    ensures length { (key text : List ℕ) → length (hmac_sha1 key text) ≡ 20 }
    ensures octets { (key text : List ℕ) → All (λ x. x < 256) (hmac_sha1 key text) }
{}
