//! What is so of every script that a bridge plays.

ghost use Rattle.std.specs.Prelude.{List, ℕ};
ghost use Rattle.sg_bridge.specs.Replayed.{IsPlayedAlike, JoinsNone};

use sg_pairs::unjoined_calls_are_told_as_they_are;

/// A script of which no line begins with `join` or `part` is played by a bridge as by a replay: the same events, and the
/// same is written.
pub fn scripts_without_joins_are_replayed()
    ensures { (octets draws : List ℕ) → JoinsNone octets → IsPlayedAlike octets draws }
{
    unjoined_calls_are_told_as_they_are();
}
