//! How a message is protected under a pre-shared key (RFC 3830, 4.2.3, 4.2.4 and 5.2).

ghost use Rattle.std.specs.Prelude.{◌≡◌, ◌≤◌, ◌*◌, ◌-◌, ◌^◌, ◌++◌, ◌∷◌, [], ℕ, List, length, take, slice_index};
ghost use Rattle.sg_base.specs.Octets.{be, number_of, same_octets, xor_octets};
ghost use Rattle.sg_hmac.specs.Labels.{authentication_key, encryption_key, message_salt};
ghost use Rattle.sg_hmac.specs.States.{Covers};
ghost use Rattle.sg_psk.specs.Envelope.{before_mac, enciphered, mac_of, message_counter, response_covers};

use sg_aes::Schedule;
use sg_base::octets_of_u32;
use sg_ctr::stream;
use sg_hmac::{MAC_LEN, Mac, labelled_key, tag_fits};

/// The constants of the labels of a message's own keys (RFC 3830, 4.1.4).
const ENCRYPTION_KEY: u32 = 0x150533e1;

const AUTHENTICATION_KEY: u32 = 0x2d22ac75;

const MESSAGE_SALT: u32 = 0x29b88916;

/// The crypto session's number in those labels.
const NO_SESSION: u8 = 255;

/// A message without the MAC at its end.
pub(crate) fn before_mac(octets: &[u8]) -> &[u8]
    ensures { result.now ≡ before_mac octets.now }
{
    &octets[..octets.len().saturating_sub(MAC_LEN)]
}

// A MAC under the pre-shared key, over no text yet.
fn begun_mac(key: &[u8], csb: u32, random: &[u8]) -> Mac
    ensures { Covers (authentication_key key.now csb random.now) [] result }
{
    let mut octets = [0; 20];
    labelled_key(
        key,
        AUTHENTICATION_KEY,
        NO_SESSION,
        csb,
        random,
        &mut octets,
    );
    Mac::new(&octets)
}

/// The MAC of a text under the pre-shared key.
#[tactic(auto, unfolding(crate::specs::Envelope::mac_of))]
pub(crate) fn mac_of(key: &[u8], csb: u32, random: &[u8], text: &[u8]) -> [u8; MAC_LEN]
    ensures { result ≡ mac_of key.now csb random.now text.now }
{
    let mut mac = begun_mac(key, csb, random);
    mac.update(text);
    mac.finish()
}

/// The MAC of a response: of a text, the initiator's name, the responder's name and the initiator's stamp.
#[tactic(auto, unfolding(crate::specs::Envelope::mac_of))]
pub(crate) fn response_mac(
    key: &[u8],
    csb: u32,
    random: &[u8],
    text: &[u8],
    initiator: &[u8],
    responder: &[u8],
    stamp: &[u8; 8],
) -> [u8; MAC_LEN]
    ensures { result ≡ mac_of key.now csb random.now (response_covers text.now initiator.now responder.now stamp.now) }
{
    let mut mac = begun_mac(key, csb, random);
    mac.update(text);
    mac.update(initiator);
    mac.update(responder);
    mac.update(stamp);
    mac.finish()
}

/// Whether a tag is this MAC. Each octet of it is looked at.
pub(crate) fn is_mac(mac: &[u8; MAC_LEN], tag: &[u8]) -> bool
    ensures { result ≡ same_octets tag.now mac.now }
{
    tag.len() == MAC_LEN && tag_fits(mac, tag)
}

// Octets put onto others by XOR.
fn xored(octets: &[u8; 14], others: &[u8; 14]) -> [u8; 14]
    ensures { result ≡ xor_octets octets.now others.now }
{
    let mut out = *octets;
    for i in 0..14 {
        out[i] ^= others[i];
    }
    out
}

// The first counter of a message's cipher, as octets.
fn initial_value(key: &[u8], csb: u32, random: &[u8], stamp: &[u8; 8]) -> [u8; 16]
    ensures value { number_of result ≡ message_counter key.now csb random.now stamp.now }
    ensures high { slice_index result 14 ≡ 0 }
    ensures low { slice_index result 15 ≡ 0 }
{
    let mut salt = [0; 14];
    labelled_key(key, MESSAGE_SALT, NO_SESSION, csb, random, &mut salt);
    let [a, b, c, d] = octets_of_u32(csb);
    let [e, f, g, h, i, j, k, l] = *stamp;
    let [m, n, o, p, q, r, s, t, u, v, w, x, y, z] = xored(
        &salt,
        &[0, 0, a, b, c, d, e, f, g, h, i, j, k, l],
    );
    [m, n, o, p, q, r, s, t, u, v, w, x, y, z, 0, 0]
}

/// Encrypts octets in place, or decrypts them, under the pre-shared key.
#[tactic(auto, unfolding(crate::specs::Envelope::enciphered))]
pub(crate) fn encipher(key: &[u8], csb: u32, random: &[u8], stamp: &[u8; 8], part: &mut [u8])
    requires { length part.old ≤ 2 ^ 20 }
    ensures { part.new ≡ enciphered key.now csb random.now stamp.now part.old }
{
    let mut octets = [0; 16];
    labelled_key(key, ENCRYPTION_KEY, NO_SESSION, csb, random, &mut octets);
    match Schedule::new(&octets) {
        Some(schedule) => stream(&schedule, &initial_value(key, csb, random, stamp), part),
        None => unreachable!(),
    }
}
