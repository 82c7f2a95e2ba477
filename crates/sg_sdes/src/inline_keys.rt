//! The keys of a crypto line.

ghost use Rattle.std.specs.Prelude.{◌≡◌, ◌≤◌, length};

use crate::InlineKey;
use arrayvec::ArrayVec;
use std::marker::Model;

/// At most eight keys, seen as their list.
#[derive(Drop)]
pub struct InlineKeys {
    items: ArrayVec<InlineKey, 8>,
}

impl Model for InlineKeys {
    ghost use Rattle.std.specs.Prelude.{List};
    ghost use Rattle.sg_sdes.specs.declared.lines.InlineKey.{InlineKey};

    ghost Value = { List InlineKey };

    ghost view = { λ k. k.items.items };
}

impl InlineKeys {
    ghost use Rattle.std.specs.Prelude.{◌≡◌, ◌≤◌, ◌∷◌, [], length};

    /// The list's keys.
    pub fn of(items: ArrayVec<InlineKey, 8>) -> InlineKeys
        ensures { result ≡ items.items }
    {
        InlineKeys { items }
    }

    /// The keys as a list.
    pub fn into_list(self) -> ArrayVec<InlineKey, 8>
        ensures { result.items ≡ self }
    {
        let InlineKeys { items } = self;
        items
    }

    /// One key.
    pub fn one(key: InlineKey) -> InlineKeys
        ensures { result ≡ key ∷ [] }
    {
        let mut items = ArrayVec::new();
        items.push(key);
        InlineKeys { items }
    }

    /// The keys as a slice.
    pub fn as_slice(&self) -> &[InlineKey]
        ensures value { result.now ≡ self.now }
        ensures most { length self.now ≤ 8 }
    {
        self.items.as_slice()
    }

    /// The same keys; it doesn't allocate.
    pub fn clone(&self) -> InlineKeys
        ensures { result ≡ self.now }
    {
        InlineKeys {
            items: clone_all(self.items.as_slice()),
        }
    }
}

fn clone_all(keys: &[InlineKey]) -> ArrayVec<InlineKey, 8>
    requires { length keys.now ≤ 8 }
    ensures { result.items ≡ keys.now }
{
    let mut items = ArrayVec::new();
    for key in keys {
        items.push(key.clone());
    }
    items
}
