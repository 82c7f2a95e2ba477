//! Tags, which are prefixes of a MAC.

ghost use Rattle.std.specs.Prelude.{◌↔◌, IsTrue};
ghost use Rattle.sg_hmac.specs.States.{IsTagOf};

use crate::MAC_LEN;

/// Whether the tag is a prefix of the whole code (RFC 2104, section 5). Each octet of the tag is
/// looked at, whatever the earlier ones were. A tag of no octets fits every code.
pub fn tag_fits(whole: &[u8; MAC_LEN], tag: &[u8]) -> bool
    ensures { IsTrue result ↔ IsTagOf tag.now whole.now }
{
    if tag.len() > whole.len() {
        return false;
    }
    let mut difference = 0;
    for (i, x) in tag.iter().enumerate() {
        difference |= *x ^ whole[i];
    }
    difference == 0
}
