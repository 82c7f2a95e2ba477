//! What a bridge tells, read and printed.

use sg_pairs::{print_bridge, read_bridge_outcome};
use std::alloc::Global;

/// Whether the line is read, and printed again as it was.
fn is_read(alloc: Global, line: &[u8]) -> bool {
    match read_bridge_outcome(alloc, line) {
        Ok(Some(outcome)) => match print_bridge(alloc, &outcome) {
            Ok(printed) => printed.as_slice() == line,
            Err(_) => false,
        },
        _ => false,
    }
}

/// Whether it is read as no outcome.
fn is_none(alloc: Global, line: &[u8]) -> bool {
    matches!(read_bridge_outcome(alloc, line), Ok(None))
}

#[test]
fn lines_of_a_bridge(rt: HostRuntime) {
    const LINES: [&[u8]; 14] = [
        b"joined 1 2\n",
        b"joined 0 4294967295\n",
        b"parted 1 2\n",
        b"unjoined 1 CallUnknown\n",
        b"unjoined 1 Same\n",
        b"unjoined 1 Unready\n",
        b"unjoined 1 Joined 4294967295\n",
        b"unjoined 1 MediaCount\n",
        b"unjoined 1 NotJoined\n",
        b"lost 20018 PortUnused\n",
        b"lost 20002 KeySpent 7 1\n",
        b"drop 20002 PortUnused\n",
        b"live 1\n",
        b"out 20000 127.0.0.1:40000 800f0007\n",
    ];
    const OTHERS: [&[u8]; 9] = [
        b"",
        b"joined 1 2",
        b"joined 1\n",
        b"joined 1 2 3\n",
        b"joined 01 2\n",
        b"parted 1 4294967296\n",
        b"unjoined 1 Joined\n",
        b"lost 20018\n",
        b"lost 20018 PortUnused\n\n",
    ];
    for line in LINES {
        assert!(rt; is_read(rt.alloc(), line));
    }
    for line in OTHERS {
        assert!(rt; is_none(rt.alloc(), line));
    }
}
