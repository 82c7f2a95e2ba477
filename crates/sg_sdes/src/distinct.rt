//! The rule on the MKIs of several keys.

ghost use Rattle.std.specs.Prelude.{◌≡◌};
ghost use Rattle.std.specs.List.{list_all};
ghost use Rattle.sg_sdes.specs.Keys.{all_differ, differs};

use crate::InlineKey;
use sg_base::mkis_differ;

fn differs(key: &InlineKey, other: &InlineKey) -> bool
    ensures { result ≡ differs key.now other.now }
{
    mkis_differ(&key.mki, &other.mki)
}

fn differs_from_all(key: &InlineKey, others: &[InlineKey]) -> bool
    ensures { result ≡ list_all (differs key.now) others.now }
{
    others.iter().all(|other| differs(key, other))
}

/// Whether no two keys lack MKIs of one length with two values.
#[tactic(auto, unfolding(crate::specs::Keys::all_differ))]
pub(crate) fn all_differ(keys: &[InlineKey]) -> bool
    ensures { result ≡ all_differ keys.now }
{
    let mut rest = keys;
    while let [first, others @ ..] = rest {
        if !differs_from_all(first, others) {
            return false;
        }
        rest = others;
    }
    true
}
