//! The laws of fields: what is spelled so is read, and what is read is spelled so.

ghost use Rattle.std.specs.Prelude.{◌≡◌, ◌<◌, ◌≤◌, ◌^◌, ℕ, List, ◌++◌, ◌∷◌, Some, decimal};
ghost use Rattle.hex.specs.Hex.{encode_lower, IsBytes};
ghost use Rattle.sg_base.specs.declared.addresses.Address.{Address};
ghost use Rattle.sg_base.specs.Fields.{IsAddress, IsFour, Lacks, address_at, address_text, cut_at, four_at, four_text, number_at, octets_at};

/// A number has one spelling, its decimal digits.
pub fn number_spelling()
    ensures again { (most n : ℕ) → n ≤ most → most < 10 ^ 64 → number_at most (decimal n) ≡ Some n }
    ensures takes { (most : ℕ) (text : List ℕ) (n : ℕ) → number_at most text ≡ Some n → (text ≡ decimal n) × (n ≤ most) }
{}

/// Octets have one spelling, their pairs of lower-case digits.
pub fn octets_spelling()
    ensures again { (octets : List ℕ) → IsBytes octets → octets_at (encode_lower octets) ≡ Some octets }
    ensures takes { (text octets : List ℕ) → octets_at text ≡ Some octets → (text ≡ encode_lower octets) × IsBytes octets }
{}

/// A text is cut at the first octet of a value, which doesn't stand before the cut.
pub fn cut_spelling()
    ensures again { (octet : ℕ) (prefix rest : List ℕ) → Lacks octet prefix → cut_at octet (prefix ++ octet ∷ rest) ≡ Some (prefix, rest) }
    ensures takes { (octet : ℕ) (text prefix rest : List ℕ) → cut_at octet text ≡ Some (prefix, rest) → (text ≡ prefix ++ octet ∷ rest) × Lacks octet prefix }
{}

/// Four numbers have one spelling.
pub fn four_spelling()
    ensures again { (ip : List ℕ) → IsFour ip → four_at (four_text ip) ≡ Some ip }
    ensures takes { (text ip : List ℕ) → four_at text ≡ Some ip → (text ≡ four_text ip) × IsFour ip }
{}

/// An address has one spelling.
pub fn address_spelling()
    ensures again { (a : Address) → IsAddress a → address_at (address_text a) ≡ Some a }
    ensures takes { (text : List ℕ) (a : Address) → address_at text ≡ Some a → (text ≡ address_text a) × IsAddress a }
{}
