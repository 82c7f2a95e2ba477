//! Lines that are answered and printed.

use sg_sdes::{CryptoLine, answer_line, print_crypto, read_crypto};
use std::alloc::Global;
use std::process::Abort;

/// Octets 0, 1, 2 and so on.
fn counted() -> [u8; 76] {
    let mut noise = [0; 76];
    for (at, octet) in noise.iter_mut().enumerate() {
        *octet = at as u8;
    }
    noise
}

/// The line is spelt so.
fn is_spelt(rt: &impl Abort, alloc: Global, line: &CryptoLine, spelling: &[u8]) {
    let printed = print_crypto(alloc, line).ok().expect(rt, "memory");
    assert!(rt; printed.as_slice() == spelling);
}

/// Values, and the one spelling of the line that each says.
const SPELLINGS: [(&[u8], &[u8]); 5] = [
    (
        b"1 AES_CM_128_HMAC_SHA1_80 inline:WVNfX19zZW1jdGwgKCkgewkyMjA7fQp9CnVubGVz|2^20|1:4 FEC_ORDER=FEC_SRTP",
        b"1 AES_CM_128_HMAC_SHA1_80 inline:WVNfX19zZW1jdGwgKCkgewkyMjA7fQp9CnVubGVz|1048576|1:4",
    ),
    (
        b"000000007   AES_CM_128_HMAC_SHA1_80  inline:WVNfX19zZW1jdGwgKCkgewkyMjA7fQp9CnVubGVz|2^48|1:4 WSH=070 UNENCRYPTED_SRTCP -FOO  UNENCRYPTED_SRTP KDR=0",
        b"7 AES_CM_128_HMAC_SHA1_80 inline:WVNfX19zZW1jdGwgKCkgewkyMjA7fQp9CnVubGVz|1:4 UNENCRYPTED_SRTP UNENCRYPTED_SRTCP WSH=70",
    ),
    (
        b"0 AES_256_CM_HMAC_SHA1_80 inline:Hh8gISIjJCUmJygpKissLS4vMDEyMzQ1Njc4OTo7PD0+P0BBQkNERUZHSElKSw|281474976710656",
        b"0 AES_256_CM_HMAC_SHA1_80 inline:Hh8gISIjJCUmJygpKissLS4vMDEyMzQ1Njc4OTo7PD0+P0BBQkNERUZHSElKSw==",
    ),
    (
        b"1 AES_CM_128_HMAC_SHA1_80 inline:WVNfX19zZW1jdGwgKCkgewkyMjA7fQp9CnVubGVz|281474976710655",
        b"1 AES_CM_128_HMAC_SHA1_80 inline:WVNfX19zZW1jdGwgKCkgewkyMjA7fQp9CnVubGVz|281474976710655",
    ),
    (
        b"1 AES_CM_128_HMAC_SHA1_80 inline:WVNfX19zZW1jdGwgKCkgewkyMjA7fQp9CnVubGVz|2|1:2;inline:AAECAwQFBgcICQoLDA0ODxAREhMUFRYXGBkaGxwd|2^1|65535:2",
        b"1 AES_CM_128_HMAC_SHA1_80 inline:WVNfX19zZW1jdGwgKCkgewkyMjA7fQp9CnVubGVz|2|1:2;inline:AAECAwQFBgcICQoLDA0ODxAREhMUFRYXGBkaGxwd|2|65535:2",
    ),
];

#[test]
fn spellings(rt: HostRuntime) {
    for (value, spelling) in &SPELLINGS {
        let line = read_crypto(value).ok().expect(&rt, "a crypto line");
        is_spelt(&rt, rt.alloc(), &line, spelling);
    }
}

/// Values, and the line that answers them with the key of counted octets.
const ANSWERED: [(&[u8], &[u8]); 1] = [(
    b"44 AES_192_CM_HMAC_SHA1_32 inline:AAECAwQFBgcICQoLDA0ODxAREhMUFRYXGBkaGxwdHh8gISIjJCU=|9|1:1 WSH=99 UNENCRYPTED_SRTP",
    b"44 AES_192_CM_HMAC_SHA1_32 inline:AAECAwQFBgcICQoLDA0ODxAREhMUFRYXGBkaGxwdHh8gISIjJCU= UNENCRYPTED_SRTP",
)];

/// An answer repeats the tag, the suite and the marks, with a key of its own.
#[test]
fn answered_lines(rt: HostRuntime) {
    for (value, spelling) in &ANSWERED {
        let chosen = read_crypto(value).ok().expect(&rt, "a crypto line");
        let answer = answer_line(&chosen, &counted());
        is_spelt(&rt, rt.alloc(), &answer, spelling);
    }
}
