//! The gateway's own policy of SRTP (RFC 3830, 6.10.1).

ghost use Rattle.std.specs.Prelude.{◌≡◌, ◌∷◌, ◌++◌, [], map, IfOk, OnOk};
ghost use Rattle.sg_psk.specs.Policy.{own_policy};

use sg_base::{NoMemory, Octets};
use sg_mikey::{Items, Policy};
use std::alloc::Global;

// Puts items behind, each of one octet.
fn put_items(
    alloc: Global,
    out: &mut Items<(u8, Octets)>,
    values: &[(u8, u8)],
) -> Result<(), NoMemory>
    ensures { OnOk result (out.new ≡ out.old ++ map (λ v. (v.0, v.1 ∷ [])) values.now) }
{
    let mut rest = values;
    while let [value, others @ ..] = rest {
        out.push((value.0, Octets::copy_of(alloc, &[value.1])?))?;
        rest = others;
    }
    Ok(())
}

/// The gateway's own policy: number 0, and each type with its default, in one octet.
pub fn default_policy(alloc: Global) -> Result<Policy, NoMemory>
    ensures { IfOk result (λ p. p ≡ own_policy) }
{
    let defaults = [
        (0, 1),
        (1, 16),
        (2, 1),
        (3, 20),
        (4, 14),
        (5, 0),
        (6, 0),
        (7, 1),
        (8, 1),
        (9, 0),
        (10, 1),
        (11, 10),
        (12, 0),
    ];
    let mut items = Items::new(alloc);
    put_items(alloc, &mut items, &defaults)?;
    Ok(Policy { number: 0, items })
}
