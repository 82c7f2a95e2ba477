//! Values of crypto attributes, read: the line of RFC 4568, 5.1, and one of two keys. Their parts at all bounds are in
//! `interop/rows` (`values-of-lines`).

use sg_base::Suite;
use sg_sdes::read_crypto;

const SAYING: &[u8] =
    b"0017 AES_CM_128_HMAC_SHA1_80 inline:WVNfX19zZW1jdGwgKCkgewkyMjA7fQp9CnVubGVz|2^20|1:4 FEC_ORDER=FEC_SRTP WSH=0063 UNENCRYPTED_SRTCP";

const SAYING_TWO: &[u8] =
    b"1 AES_CM_128_HMAC_SHA1_80 inline:WVNfX19zZW1jdGwgKCkgewkyMjA7fQp9CnVubGVz|2|1:1;inline:AAECAwQFBgcICQoLDA0ODxAREhMUFRYXGBkaGxwd|2:1 UNENCRYPTED_SRTP";

/// The line of RFC 4568, section 5.1, with a window, and what each of its words says.
#[test]
fn what_a_line_says(rt: HostRuntime) {
    let line = read_crypto(SAYING).ok().expect(&rt, "a crypto line");
    assert!(rt; line.tag == 17);
    assert!(rt; line.suite == Suite::Cm128Tag80);
    assert!(rt; line.window == Some(63));
    assert!(rt; (line.plain_rtp, line.plain_rtcp) == (false, true));
    let keys = line.keys.as_slice();
    assert!(rt; keys.len() == 1);
    assert!(rt; keys[0].lifetime == 1_048_576);
    assert!(rt; keys[0].key.key() == b"YS___semctl () {".as_slice());
    assert!(rt; keys[0].key.salt() == b"\t220;}\n}\nunles".as_slice());
    let mki = keys[0].mki.expect(&rt, "an MKI");
    assert!(rt; (mki.value(), mki.len()) == (1, 4));
}

/// Several keys in their order, with the longest lifetime where none is stated.
#[test]
fn what_two_keys_say(rt: HostRuntime) {
    let line = read_crypto(SAYING_TWO).ok().expect(&rt, "a crypto line");
    assert!(rt; line.window == None);
    assert!(rt; (line.plain_rtp, line.plain_rtcp) == (true, false));
    let keys = line.keys.as_slice();
    assert!(rt; keys.len() == 2);
    assert!(rt; (keys[0].lifetime, keys[1].lifetime) == (2, 281_474_976_710_656));
    assert!(rt;
        keys[1].key.key() == [0, 1, 2, 3, 4, 5, 6, 7, 8, 9, 10, 11, 12, 13, 14, 15].as_slice()
    );
}
