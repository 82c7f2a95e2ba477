//! Messages that are noted, so that none is accepted again (RFC 3830, 5.4).

ghost use Rattle.std.specs.Prelude.{◌≡◌, ◌≤◌, ◌<◌, ◌+◌, ◌∷◌, [], ℕ, List, Option, Some, length, slice_get};
ghost use Rattle.std.specs.List.{filter_map};
ghost use Rattle.sg_agreement.specs.Keying as agreed;
ghost use Rattle.sg_agreement.specs.Keying.{note_in, notes_of};
ghost use Rattle.sg_agreement.specs.Messages as messages;
ghost use Rattle.sg_psk.specs.declared.pairs.Pair.{Pair};
ghost use Rattle.sg_leg.specs.Open.{HasRoom, IsBundleIf, IsKeyingOf, with_notes};
ghost use Rattle.sg_leg.specs.Pairs.{EachPair};
ghost use Rattle.sg_leg.specs.declared.keying.Bundle as kept;

use crate::keying::{Bundle, Keying};
use sg_psk::ReplayBook;

fn note_if(bundle: &Option<Bundle>, seen: &mut ReplayBook)
    requires room { (b : kept.Bundle) → bundle.now ≡ Some b → length seen.old < 1024 }
    ensures notes { (pairs : List Pair) (c : Option messages.Bundle) → IsBundleIf pairs bundle.now c → seen.new ≡ with_notes seen.old (filter_map note_in (c ∷ [])) }
    ensures most { length seen.new ≤ length seen.old + 1 }
{
    if let Some(bundle) = bundle {
        seen.note(&bundle.initial);
    }
}

fn note_bundles(bundles: &[Option<Bundle>], seen: &mut ReplayBook)
    requires few { length bundles.now ≤ 4 }
    requires room { (i : ℕ) (b : kept.Bundle) → slice_get bundles.now i ≡ Some (Some b) → length seen.old ≤ 1020 }
    ensures { (pairs : List Pair) (cs : List (Option messages.Bundle)) → EachPair (IsBundleIf pairs) bundles.now cs → seen.new ≡ with_notes seen.old (filter_map note_in cs) }
{
    for bundle in bundles {
        note_if(bundle, seen);
    }
}

/// Notes the messages of a keying. No memory is taken.
pub(crate) fn note_all(keying: &Keying, seen: &mut ReplayBook)
    requires room { HasRoom keying.now seen.old }
    ensures { (pairs : List Pair) (k : agreed.Keying) → IsKeyingOf pairs keying.now k → seen.new ≡ with_notes seen.old (notes_of k) }
{
    match keying {
        Keying::PeerMessage(bundle) => seen.note(&bundle.initial),
        Keying::PeerMessages(bundles) => note_bundles(bundles.as_slice(), seen),
        Keying::PeerLines(_) | Keying::OwnLines(_) | Keying::OwnMessage(_) => {}
    }
}
