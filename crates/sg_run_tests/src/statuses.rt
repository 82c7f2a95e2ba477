//! What the statuses of a run are told as.

use sg_base::ScriptFault;
use sg_pcap::CaptureFault;
use sg_run::Status;

#[test]
fn numbers_and_texts(rt: HostRuntime) {
    let script = Status::Script {
        line: 7,
        fault: ScriptFault::Hex,
    };
    let capture = Status::Capture {
        offset: 20,
        fault: CaptureFault::LinkType,
    };
    let rows = [
        (Status::Done, 0, ""),
        (Status::Usage, 1, "srtpgw: usage"),
        (script, 2, "srtpgw: script line 7: Hex"),
        (Status::Read, 3, "srtpgw: read failed"),
        (Status::Write, 4, "srtpgw: write failed"),
        (Status::Link, 5, "srtpgw: link failed"),
        (Status::NoMemory, 6, "srtpgw: no memory"),
        (Status::Clock, 7, "srtpgw: clock failed"),
        (Status::Noise, 8, "srtpgw: noise failed"),
        (Status::TurnsSpent, 9, "srtpgw: turns spent"),
        (capture, 10, "srtpgw: capture octet 20: LinkType"),
    ];
    for (status, number, text) in &rows {
        let told = format!(in rt.alloc(); "{status}").expect(&rt, "memory");
        assert!(rt; told.as_str() == *text);
        assert!(rt; status.number() == *number);
    }
}
