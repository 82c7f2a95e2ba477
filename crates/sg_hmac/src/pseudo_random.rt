//! The pseudo-random function of MIKEY, MIKEY-1, and the labels of the keys that it makes (RFC 3830, 4.1).

ghost use Rattle.std.specs.Prelude.{◌≡◌, ◌≤◌, ℕ, List, ◌∷◌, ◌++◌, length};
ghost use Rattle.sg_base.specs.Octets.{be, xor_octets};
ghost use Rattle.sg_hmac.specs.Hmac.{hmac_sha1};
ghost use Rattle.sg_hmac.specs.Labels.{label_of};
ghost use Rattle.sg_hmac.specs.Prf.{expanded, mikey_prf};
ghost use Rattle.sg_hmac.specs.States.{IsMacKey};

use crate::{MAC_LEN, MacKey};
use sg_base::octets_of_u32;

/// The octets of a block of the in-key: 256 bits (RFC 3830, 4.1.2).
const BLOCK: usize = 32;

/// Fills the part with the function's output of the part's length, from an in-key and a label of any
/// lengths. An in-key of no octets gives zeros.
pub fn prf(secret: &[u8], label: &[u8], part: &mut [u8])
    ensures { part.new ≡ mikey_prf secret.now label.now (length part.old) }
{
    under_label(secret, label, &[], part);
}

/// Fills the part with the key of its length that the in-key gives: the function's output under the
/// label of these four fields (RFC 3830, 4.1.3 and 4.1.4).
pub fn labelled_key(
    secret: &[u8],
    constant: u32,
    session: u8,
    csb: u32,
    random: &[u8],
    part: &mut [u8],
)
    ensures { part.new ≡ mikey_prf secret.now (label_of constant session csb random.now) (length part.old) }
{
    under_label(secret, &label_head(constant, session, csb), random, part);
}

// A label before its random octets.
fn label_head(constant: u32, session: u8, csb: u32) -> [u8; 9]
    ensures { result ≡ be constant 4 ++ session ∷ be csb 4 }
{
    let [a, b, c, d] = octets_of_u32(constant);
    let [e, f, g, h] = octets_of_u32(csb);
    [a, b, c, d, session, e, f, g, h]
}

// The function under a label of two parts.
fn under_label(secret: &[u8], head: &[u8], tail: &[u8], part: &mut [u8])
    ensures { part.new ≡ mikey_prf secret.now (head.now ++ tail.now) (length part.old) }
{
    part.fill(0);
    let mut rest = secret;
    for _ in 0..secret.len().div_ceil(BLOCK) {
        let (block, others) = rest.split_at(rest.len().min(BLOCK));
        expand_onto(block, head, tail, part);
        rest = others;
    }
}

// XORs P of one block onto the part.
fn expand_onto(secret: &[u8], head: &[u8], tail: &[u8], part: &mut [u8])
    ensures { part.new ≡ xor_octets part.old (expanded secret.now (head.now ++ tail.now) (length part.old)) }
{
    let len = part.len();
    let key = MacKey::new(secret);
    let mut chain = mac_over(&key, head, tail, &[]);
    for i in 0..len.div_ceil(MAC_LEN) {
        let mac = mac_over(&key, &chain, head, tail);
        xor_onto(&mut part[MAC_LEN * i..len.min(MAC_LEN * i + MAC_LEN)], &mac);
        chain = mac_over(&key, &chain, &[], &[]);
    }
}

// The MAC of three parts joined.
fn mac_over(key: &MacKey, first: &[u8], second: &[u8], third: &[u8]) -> [u8; MAC_LEN]
    ensures { (secret : List ℕ) → IsMacKey secret key.now
        → result ≡ hmac_sha1 secret (first.now ++ second.now ++ third.now) }
{
    let mut mac = key.start();
    mac.update(first);
    mac.update(second);
    mac.update(third);
    mac.finish()
}

// XORs the first octets of a MAC onto a part that isn't longer.
fn xor_onto(part: &mut [u8], mac: &[u8; MAC_LEN])
    requires { length part.old ≤ 20 }
    ensures { part.new ≡ xor_octets part.old mac.now }
{
    for i in 0..part.len() {
        part[i] ^= mac[i];
    }
}
