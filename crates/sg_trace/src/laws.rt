//! The law of captures behind a script.

ghost use Rattle.std.specs.Prelude.{ℕ, List};
ghost use Rattle.sg_trace.specs.CaptureHolds.{CaptureHolds};

/// A capture of version 2.4 and link type 1 that was written by its tables, with frames of at most 262,144 octets, and of at
/// most 2^30 octets with the script before it, is met as what was written, and nothing else. Each record comes in order: a
/// tick, where its moment is greater than the script's last one and all before it, and then what its frame gives, which is a
/// datagram, of a longer one the first 4,352 octets, or the line that tells the cause, or nothing. Of a capture of another
/// version, or else of another link type, the run ends with `Version` at its octet 4, or with `LinkType` at its octet 20,
/// where its header is within the first 2^30 octets. Without a line `capture` the run is a replay's.
pub fn the_capture_holds()
    ensures { (octets draws : List ℕ) → CaptureHolds octets draws }
{
    sg_pcap::frames_are_read();
    sg_pcap::captures_are_read();
}
