//! Packet indices, guessed from numbers of 16 bits.

use sg_index::Place;

// Numbers in the order in which they come, with the index of each.
#[test]
fn follows_a_stream_round_a_turn(rt: HostRuntime) {
    let mut place = Place::start(0, 65534);
    for (seq, index) in [
        (65534, 65534),
        (65535, 65535),
        (0, 65536),
        (1, 65537),
        (65533, 65533),
    ] {
        assert!(rt; place.guess(seq) == Ok(index));
        assert!(rt; index < 281474976710656);
        place.note(index);
    }
    assert!(rt; place.highest() == 65537);
}
