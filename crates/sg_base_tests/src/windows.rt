//! Replay windows.

use sg_replay::Freshness::{New, Repeat, TooOld};
use sg_replay::Seen;

#[test]
fn keeps_the_highest_at_a_late_index(rt: HostRuntime) {
    let mut seen = Seen::make(64);
    for index in [65534, 65535, 65536, 65537, 65533] {
        assert!(rt; seen.test(index) == New);
        seen.mark(index);
        assert!(rt; seen.test(index) == Repeat);
    }
    assert!(rt; seen.test(65537 - 64) == TooOld);
    assert!(rt; seen.test(65537 - 63) == New);
}
