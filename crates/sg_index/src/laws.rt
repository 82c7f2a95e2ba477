//! Laws of the nearest index: each function's contract is a law, and its body is empty.

ghost use Rattle.std.specs.Prelude.{◌≡◌, ℕ, ◌+◌, ◌<◌, ◌^◌, ◌%◌, ◌↔◌, Ok, Err};
ghost use Rattle.sg_base.specs.declared.IndexFault.TheVariants.{BeforeFirst, IndexSpent};
ghost use Rattle.sg_index.specs.Nearest.{nearest_index, IsNearest, IsBeforeFirst, IsSpent};

/// The nearest index by the standard's words: it is the one that is nearest, no other is, and the two
/// faults come where it is below 0, and where it is 2^48 or more.
pub fn nearest_law()
    ensures ok { (h seq n : ℕ) → seq < 2 ^ 16
        → (nearest_index h seq ≡ Ok n) ↔ (IsNearest h seq n × (n < 2 ^ 48)) }
    ensures one { (h seq m n : ℕ) → IsNearest h seq m → IsNearest h seq n → m ≡ n }
    ensures before_first { (h seq : ℕ) → seq < 2 ^ 16 → (nearest_index h seq ≡ Err BeforeFirst) ↔ IsBeforeFirst h seq }
    ensures spent { (h seq : ℕ) → seq < 2 ^ 16 → (nearest_index h seq ≡ Err IndexSpent) ↔ IsSpent h seq }
{}

/// Less than half a turn from the highest, an index is found from its number alone.
pub fn reach_law()
    ensures { (h i : ℕ) → i < 2 ^ 48 → i < h + 2 ^ 15 → h < i + 2 ^ 15
        → nearest_index h (i % 2 ^ 16) ≡ Ok i }
{}
