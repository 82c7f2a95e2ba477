//! Master key identifiers: their octets, and which differ.

use sg_base::{Mki, mkis_differ};

#[test]
fn has_the_highest_octet_first(rt: HostRuntime) {
    let short = Mki::new(0x0102, 4).expect(&rt, "258 fits four octets");
    assert!(rt; short.octets().as_slice() == [0, 0, 1, 2].as_slice());
}

#[test]
fn differs_in_its_value(rt: HostRuntime) {
    let one = Mki::new(1, 2);
    assert!(rt; mkis_differ(&one, &Mki::new(2, 2)));
}
