//! Fields of texts.

use sg_base::{Address, Suite, cut, read_address, read_four, read_number, read_octets, read_suite};

#[test]
fn numbers(rt: HostRuntime) {
    let rows: [(u128, &[u8], Option<u128>); 3] = [
        (65535, b"65535", Some(65535)),
        (65535, b"65536", None),
        (65535, b"07", None),
    ];
    for (most, text, number) in &rows {
        assert!(rt; read_number(*most, text) == *number);
    }
}

#[test]
fn pairs_of_digits(rt: HostRuntime) {
    let read = read_octets(rt.alloc(), b"09af").expect(&rt, "memory");
    let octets = read.expect(&rt, "hex");
    assert!(rt; octets.as_slice() == b"\x09\xaf".as_slice());
}

#[test]
fn addresses(rt: HostRuntime) {
    let ip = [127, 0, 0, 1];
    assert!(rt; read_address(b"127.0.0.1:40000") == Some(Address { ip, port: 40000 }));
    assert!(rt; read_four(b"127.0.0.1") == Some(ip));
}

#[test]
fn cuts_and_names(rt: HostRuntime) {
    assert!(rt; cut(b':', b"a:b:c") == Some((b"a".as_slice(), b"b:c".as_slice())));
    assert!(rt; read_suite(b"AES_256_CM_HMAC_SHA1_32") == Some(Suite::Cm256Tag32));
}
