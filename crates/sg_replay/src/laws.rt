//! Laws of the highest index and of new ones: each function's contract is a law, and its body is empty.

ghost use Rattle.std.specs.Prelude.{◌≡◌, ℕ, ◌<◌, List, [], ◌∷◌, ◌++◌, Some, None, true, false};
ghost use Rattle.sg_replay.specs.declared.seen.Freshness.TheVariants.{New};
ghost use Rattle.sg_replay.specs.Freshness.{freshness, highest_of, highest_with, is_in};

/// The highest of a list is in it and nothing above it is, only an empty list has none, and it grows
/// with the list.
pub fn highest_law()
    ensures pushed { (done : List ℕ) (i : ℕ) → highest_of (done ++ i ∷ []) ≡ Some (highest_with (highest_of done) i) }
    ensures member { (done : List ℕ) (h : ℕ) → highest_of done ≡ Some h → is_in done h ≡ true }
    ensures above { (done : List ℕ) (h i : ℕ) → highest_of done ≡ Some h → h < i → is_in done i ≡ false }
    ensures empty { (done : List ℕ) → highest_of done ≡ None → done ≡ [] }
{}

/// An index that is new isn't in the list, whatever the window.
pub fn fresh_law()
    ensures { (window : ℕ) (done : List ℕ) (i : ℕ) → freshness window done i ≡ New → is_in done i ≡ false }
{}
