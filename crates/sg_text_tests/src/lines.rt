//! Script lines, read and printed.

ghost use Rattle.std.specs.Prelude.{◌≡◌, ◌⊎◌};

use sg_script::{ReadLineFault, ScriptFault, print_line, read_line};
use std::alloc::Global;
use std::process::Abort;

/// The fault of the second line of a script of that version; none where it is a line, which must then be
/// printed as it was.
fn fault_of(rt: &impl Abort, alloc: Global, version: u8, octets: &[u8]) -> Option<ScriptFault>
    requires { (version ≡ 1) ⊎ (version ≡ 2) }
{
    match read_line(alloc, version, 2, octets) {
        Ok(line) => {
            let printed = print_line(alloc, &line).ok().expect(rt, "memory");
            assert!(rt; printed.as_slice() == octets);
            None
        }
        Err(ReadLineFault::Script(fault)) => Some(fault),
        Err(ReadLineFault::NoMemory) => {
            assert!(rt; false, "memory");
            None
        }
    }
}

/// In a script of that version the first have these faults, and the others are lines.
fn have_faults(
    rt: &impl Abort,
    alloc: Global,
    version: u8,
    bad: &[(&[u8], ScriptFault)],
    good: &[&[u8]],
)
    requires { (version ≡ 1) ⊎ (version ≡ 2) }
{
    for (row, fault) in bad {
        assert!(rt; fault_of(rt, alloc, version, row) == Some(*fault));
    }
    for row in good {
        assert!(rt; fault_of(rt, alloc, version, row) == None);
    }
}

/// The fields of good lines, each form once, and their bounds.
#[test]
fn good_lines(rt: HostRuntime) {
    const ROWS: [&[u8]; 23] = [
        b"manual 1 127.0.0.1:40000 127.0.0.1:41000 00000000 64 RAW80:cebe321f6ff7716b6fd4ab49af256a156d38baa4 RAW80:0b0b0b0b0b0b0b0b0b0b0b0b0b0b0b0b0b0b0b0b\n",
        b"in 20000 127.0.0.1:40000 800f1234decafbadcafebabe4e55dc4ce79978d88ca4d215949d2402b78d6acc99ea179b8dbb\n",
        b"in 0 0.0.0.0:0 -\n",
        b"in 65535 255.255.255.255:65535 00ff\n",
        b"tick 0\n",
        b"tick 2085978495999\n",
        b"psk ! ~ 000102030405060708090a0b0c0d0e0f\n",
        b"psk a@b.c #1:2 ffffffffffffffffffffffffffffffff\n",
        b"reject 4294967295\n",
        b"reject 0\n",
        b"bye 17\n",
        b"answer 1 - -\n",
        b"offer-secure 1 - 763d300d0a\n",
        b"offer-plain 2 sdes - 763d300d0a\n",
        b"offer-plain 2 mikey peer - 763d300d0a\n",
        b"offer-plain 2 mikey sdes - -\n",
        b"manual 1 127.0.0.1:40000 127.0.0.1:41000 00000000 64 RAW80:0000000000000000000000000000000000000000 RAW80:0000000000000000000000000000000000000001\n",
        b"manual 1 127.0.0.1:40000 127.0.0.1:41000 ffffffff 1024 AES_CM_128_HMAC_SHA1_80:000000000000000000000000000000000000000000000000000000000000 AES_CM_128_HMAC_SHA1_32:000000000000000000000000000000000000000000000000000000000000\n",
        b"manual 1 127.0.0.1:40000 127.0.0.1:65535 0a0b0c0d 65 AES_192_CM_HMAC_SHA1_80:0000000000000000000000000000000000000000000000000000000000000000000000000000 AES_192_CM_HMAC_SHA1_32:0000000000000000000000000000000000000000000000000000000000000000000000000000\n",
        b"manual 1 127.0.0.1:40000 127.0.0.1:0 0a0b0c0d 100 AES_256_CM_HMAC_SHA1_80:00000000000000000000000000000000000000000000000000000000000000000000000000000000000000000000 AES_256_CM_HMAC_SHA1_32:00000000000000000000000000000000000000000000000000000000000000000000000000000000000000000000\n",
        b"psk 0 0 00000000000000000000000000000000000000000000000000000000000000000000000000000000000000000000000000000000000000000000000000000000\n",
        b"answer 0 - 0a0d00\n",
        b"in 20000 10.0.0.1:1 0a20\n",
    ];
    have_faults(&rt, rt.alloc(), 1, &[], &ROWS);
}

/// One fault a row, each of the first kind that the line has.
#[test]
fn bad_lines(rt: HostRuntime) {
    use ScriptFault::{Hex, Length, Number, Unended, Word};
    const ROWS: [(&[u8], ScriptFault); 67] = [
        (b"", Unended),
        (b"tick 1", Unended),
        (b"frob", Unended),
        (b"\n", Word),
        (b"frob\n", Word),
        (b"tick\n", Word),
        (b"tick 1 2\n", Word),
        (b"tick  1\n", Word),
        (b"tick 1 \n", Word),
        (b" tick 1\n", Word),
        (b"Tick 1\n", Word),
        (b"tick\t1\n", Word),
        (b"srtpgw 1\n", Word),
        (b"reject\n", Word),
        (b"bye x 1\n", Word),
        (b"in x 1.1.1.1:1\n", Word),
        (b"in 1 1.1.1.1:1 - -\n", Word),
        (b"offer-plain x zrtp - -\n", Word),
        (b"offer-plain x mikey - -\n", Word),
        (b"offer-plain x sdes peer - -\n", Word),
        (b"offer-plain x mikey p\xc3\xa4r - -\n", Number),
        (b"tick 01\n", Number),
        (b"tick \xd9\xa1\n", Number),
        (b"tick -1\n", Number),
        (b"tick +1\n", Number),
        (b"tick 1\r\n", Number),
        (b"tick 2085978496000\n", Number),
        (b"reject 4294967296\n", Number),
        (b"reject 00\n", Number),
        (b"bye 1.0\n", Number),
        (b"in 65536 1.1.1.1:1 zz\n", Number),
        (b"in 1 1.1.1.256:1 zz\n", Number),
        (b"in 1 1.1.1:1 -\n", Number),
        (b"in 1 1.1.1.1.1:1 -\n", Number),
        (b"in 1 1.1.1.1 -\n", Number),
        (b"in 1 1.1.1.1:65536 -\n", Number),
        (b"in 1 01.1.1.1:1 -\n", Number),
        (b"in 1 1.1.1.1:1 0\n", Hex),
        (b"in 1 1.1.1.1:1 FF\n", Hex),
        (b"in 1 1.1.1.1:1 8G\n", Hex),
        (b"in 1 1.1.1.1:1 0x10\n", Hex),
        (b"in 1 1.1.1.1:1 --\n", Hex),
        (b"answer 1 - \n", Hex),
        (b"answer 1  -\n", Hex),
        (b"answer 1 00 -\n", Length),
        (b"answer 1 0 -\n", Hex),
        (b"psk  a 00\n", Length),
        (b"psk a  00\n", Length),
        (b"psk a\x7f a 00\n", Word),
        (b"psk a \x80 zz\n", Word),
        (b"psk a b 000102030405060708090a0b0c0d0e\n", Length),
        (b"psk a b -\n", Length),
        // No name holds a space.
        (b"psk a b c 000102030405060708090a0b0c0d0e0f\n", Word),
        (b"psk a b 0001020304050607080g0a0b0c0d0e0f\n", Hex),
        (
            b"manual 1 1.1.1.1:1 1.1.1.1:1 0000000 64 RAW80:- RAW80:-\n",
            Hex,
        ),
        (
            b"manual 1 1.1.1.1:1 1.1.1.1:1 000000 64 RAW80:- RAW80:-\n",
            Hex,
        ),
        (
            b"manual 1 1.1.1.1:1 1.1.1.1:1 0000000000 64 RAW80:- RAW80:-\n",
            Hex,
        ),
        (
            b"manual 1 1.1.1.1:1 1.1.1.1:1 0000000A 64 RAW80:- RAW80:-\n",
            Hex,
        ),
        (b"manual 1 1.1.1.1:1 1.1.1.1:1 - 64 RAW80:- RAW80:-\n", Hex),
        (
            b"manual 1 1.1.1.1:1 1.1.1.1:1 00000000 63 RAW80:- RAW80:-\n",
            Number,
        ),
        (
            b"manual 1 1.1.1.1:1 1.1.1.1:1 00000000 1025 RAW80:- RAW80:-\n",
            Number,
        ),
        (
            b"manual 1 1.1.1.1:1 1.1.1.1:1 00000000 64 RAW80 RAW80:-\n",
            Word,
        ),
        (
            b"manual 1 1.1.1.1:1 1.1.1.1:1 00000000 64 RAW80: RAW80:-\n",
            Hex,
        ),
        (
            b"manual 1 1.1.1.1:1 1.1.1.1:1 00000000 64 RAW80:- RAW80:-\n",
            Length,
        ),
        (
            b"manual 1 1.1.1.1:1 1.1.1.1:1 00000000 64 F8_128_HMAC_SHA1_80:00 RAW80:-\n",
            Word,
        ),
        // The rule on the two keys comes last, behind the second key's own faults.
        (
            b"manual 1 1.1.1.1:1 1.1.1.1:1 00000000 64 RAW80:0000000000000000000000000000000000000000 AES_CM_128_HMAC_SHA1_80:00000000000000000000000000000000000000000000000000000000000\n",
            Hex,
        ),
        (
            b"manual 1 1.1.1.1:1 1.1.1.1:1 00000000 64 RAW80:0000000000000000000000000000000000000000 AES_CM_128_HMAC_SHA1_80:000000000000000000000000000000000000000000000000000000000000\n",
            Word,
        ),
    ];
    have_faults(&rt, rt.alloc(), 1, &ROWS, &[]);
}

/// A datagram has its moment in version 2, and none in version 1.
#[test]
fn datagrams_with_moments(rt: HostRuntime) {
    use ScriptFault::{Hex, Length, Number, Word};
    const GOOD: [&[u8]; 3] = [
        b"in 0 20000 127.0.0.1:40000 -\n",
        b"in 2085978495999 0 0.0.0.0:0 80\n",
        b"in 5 65535 255.255.255.255:65535 00ff\n",
    ];
    const BAD: [(&[u8], ScriptFault); 12] = [
        (b"in 20000 127.0.0.1:40000 -\n", Word),
        (b"in 5 20000 127.0.0.1:40000 - -\n", Word),
        (b"srtpgw 1\n", Word),
        (b"srtpgw 2\n", Word),
        (b"tick 5 5\n", Word),
        (b"in 2085978496000 20000 127.0.0.1:40000 -\n", Number),
        (b"in 01 20000 127.0.0.1:40000 -\n", Number),
        (b"in - 20000 127.0.0.1:40000 -\n", Number),
        (b"in  20000 127.0.0.1:40000 -\n", Number),
        (b"in 5 65536 127.0.0.1 8G\n", Number),
        (b"in 5 20000 127.0.0.1:40000 8G\n", Hex),
        (b"answer 1 00 -\n", Length),
    ];
    have_faults(&rt, rt.alloc(), 2, &BAD, &GOOD);
    for row in GOOD {
        assert!(rt; fault_of(&rt, rt.alloc(), 1, row) == Some(Word));
    }
}
