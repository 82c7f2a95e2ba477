//! Pads: what is edited in place.

use sg_base::Pad;

#[test]
fn edits_in_place(rt: HostRuntime) {
    let mut pad = Pad::make(rt.alloc()).expect(&rt, "memory");
    assert!(rt; pad.fill(&[1, 2, 3]) == Ok(()));
    pad.append(&[4, 5]);
    assert!(rt; pad.octets() == [1, 2, 3, 4, 5].as_slice());
    if let Some(octet) = pad.octets_mut().first_mut() {
        *octet = 9;
    }
    pad.cut_to(2);
    assert!(rt; pad.octets() == [9, 2].as_slice());
}
