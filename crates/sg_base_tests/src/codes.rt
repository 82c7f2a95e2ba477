//! RFC 2202, and keys that another program computed.

use sg_hmac::{Mac, labelled_key, tag_fits};

struct Row<'a> {
    key: &'a [u8],
    text: &'a [u8],
    code: [u32; 5],
}

const COUNTED: [u8; 25] = [
    1, 2, 3, 4, 5, 6, 7, 8, 9, 10, 11, 12, 13, 14, 15, 16, 17, 18, 19, 20, 21, 22, 23, 24, 25,
];

// RFC 2202, section 3, test cases 1 to 7.
const ROWS: [Row<'static>; 7] = [
    Row {
        key: &[0x0b; 20],
        text: b"Hi There",
        code: [0xb6173186, 0x55057264, 0xe28bc0b6, 0xfb378c8e, 0xf146be00],
    },
    Row {
        key: b"Jefe",
        text: b"what do ya want for nothing?",
        code: [0xeffcdf6a, 0xe5eb2fa2, 0xd27416d5, 0xf184df9c, 0x259a7c79],
    },
    Row {
        key: &[0xaa; 20],
        text: &[0xdd; 50],
        code: [0x125d7342, 0xb9ac11cd, 0x91a39af4, 0x8aa17b4f, 0x63f175d3],
    },
    Row {
        key: &COUNTED,
        text: &[0xcd; 50],
        code: [0x4c9007f4, 0x026250c6, 0xbc8414f9, 0xbf50c86c, 0x2d7235da],
    },
    Row {
        key: &[0x0c; 20],
        text: b"Test With Truncation",
        code: [0x4c1a0342, 0x4b55e07f, 0xe7f27be1, 0xd58bb932, 0x4a9a5a04],
    },
    Row {
        key: &[0xaa; 80],
        text: b"Test Using Larger Than Block-Size Key - Hash Key First",
        code: [0xaa4ae5e1, 0x5272d00e, 0x95705637, 0xce8a3b55, 0xed402112],
    },
    Row {
        key: &[0xaa; 80],
        text: b"Test Using Larger Than Block-Size Key and Larger Than One Block-Size Data",
        code: [0xe8e99d0f, 0x45237d78, 0x6d6bbaa7, 0x965c7808, 0xbbff1a91],
    },
];

fn octets_of(words: &[u32; 5]) -> [u8; 20] {
    let mut octets = [0; 20];
    for (i, word) in words.iter().enumerate() {
        octets[4 * i..4 * i + 4].copy_from_slice(&word.to_be_bytes());
    }
    octets
}

#[test]
fn published_codes(rt: HostRuntime) {
    for row in &ROWS {
        let mut mac = Mac::new(row.key);
        mac.update(row.text);
        assert!(rt; mac.finish() == octets_of(&row.code));
    }
}

// RFC 2202, section 3, test case 5: the code cut to 96 bits.
#[test]
fn cut_tags(rt: HostRuntime) {
    let whole = octets_of(&ROWS[4].code);
    let mut tag = [
        0x4c, 0x1a, 0x03, 0x42, 0x4b, 0x55, 0xe0, 0x7f, 0xe7, 0xf2, 0x7b, 0xe1,
    ];
    assert!(rt; tag_fits(&whole, &tag));
    assert!(rt; tag_fits(&whole, &whole));
    assert!(rt; !tag_fits(&whole, &[0x4c; 21]));
    tag[11] ^= 1;
    assert!(rt; !tag_fits(&whole, &tag));
}

// Octets that go up by 7 from a first one, modulo 256.
fn stepped<const N: usize>(first: u8) -> [u8; N] {
    let mut octets = [0; N];
    let mut next = first;
    for octet in octets.iter_mut() {
        *octet = next;
        next = next.wrapping_add(7);
    }
    octets
}

// Computed by Python's hmac and hashlib from RFC 3830, 4.1.2 to 4.1.4: a constant, a crypto session and the output
// under a bundle's label, whose random octets go up from 9. The in-key goes up from 3.
#[test]
fn labels_of_another_program(rt: HostRuntime) {
    let secret: [u8; 16] = stepped(3);
    let random: [u8; 16] = stepped(9);
    let rows: [(u32, u8, &[u8]); 3] = [
        (
            0x2ad01c64,
            1,
            b"\x5c\xd3\x6b\x6a\xa0\x32\x69\xf0\x01\x66\x55\xd9\xb1\xb3\xc2\x74\xf6\x10\x5a\x1a",
        ),
        (
            0x39a2c14b,
            2,
            b"\x98\xc0\xa8\xaa\x53\x20\xae\xf0\x19\x58\xa8\xd9\x3f\x2b\xda\x0f\x42\x9b\x38\xab",
        ),
        (
            0x150533e1,
            255,
            b"\x5a\x49\x4b\xf6\xed\xa7\xdc\x46\x95\xf4\x1c\x85\xbd\x7a\x24\x54\x4c\xae\x68\x1e",
        ),
    ];
    for (constant, session, octets) in rows {
        let mut part = [0; 20];
        labelled_key(&secret, constant, session, 0xcafebabe, &random, &mut part);
        assert!(rt; part.as_slice() == octets);
    }
}
