//! The gateway's limits that several crates share. Lengths are in octets.

/// How many calls there are at once; a call has one slot of so many.
pub const CALLS_MOST: usize = 256;

/// How many media a call has at most.
pub const MEDIA_MOST: usize = 4;

/// How many streams a session has at most.
pub const STREAMS_MOST: usize = 64;

/// How many keys a session has at most.
pub const SESSION_KEYS_MOST: usize = 8;

/// How many keys a process installs at most.
pub const RING_KEYS_MOST: usize = 65_536;

/// The smallest replay window (RFC 3711, 3.3.2), in packets.
pub const WINDOW_LEAST: u16 = 64;

/// The largest replay window, and that of each sealing session.
pub const WINDOW_MOST: u16 = 1_024;

/// How many SRTP packets a key serves at most (RFC 3711, 9.2): 2^48.
pub const RTP_LIFE: u64 = 281_474_976_710_656;

/// How many SRTCP packets a key serves at most (RFC 3711, 9.2): 2^31.
pub const RTCP_LIFE: u64 = 2_147_483_648;

/// The tag of an SRTCP packet (RFC 3711, 5.2), of every suite.
pub const RTCP_TAG: usize = 10;

/// The longest master key identifier (RFC 4568, 6.1).
pub const MKI_MOST: usize = 128;

/// The first port of slot 0.
pub const FIRST_PORT: u16 = 20_000;

/// How many ports a slot has.
pub const SLOT_PORTS: u16 = 16;

/// How many ports a medium has: secure RTP, secure RTCP, plain RTP and plain RTCP.
pub const MEDIUM_PORTS: u16 = 4;

/// How many datagrams wait for a call, or were handled and not taken out, at most; so many are a batch.
pub const BATCH_MOST: usize = 256;

/// How many workers handle a batch at most.
pub const WORKERS_MOST: usize = 16;

/// How many turns a relay takes at most.
pub const TURNS_MOST: u64 = 1_000_000_000;

/// How long a generation that was replaced still opens, in milliseconds of ticks.
pub const EARLIER_MILLIS: u64 = 2_000;

/// After how many milliseconds of ticks without an accepted signal or a packet put out a call ends.
pub const IDLE_MILLIS: u64 = 60_000;

/// How many octets a pad can hold.
pub const PAD_MOST: usize = 4_352;

/// How many octets a plain packet has at most.
pub const PLAIN_MOST: usize = 4_096;

/// How many octets a protected packet has at most: a plain one with the longest MKI, the word of an
/// SRTCP index, and a tag of 10.
pub const PROTECTED_MOST: usize = 4_238;

/// How many octets of noise a signal draws.
pub const NOISE: usize = 304;

/// How many pre-shared keys a gateway holds at most.
pub const PAIRS_MOST: usize = 64;

/// How many accepted messages a gateway keeps at most, so that none is accepted twice (RFC 3830, 5.4).
pub const NOTED_MOST: usize = 1_024;

/// The longest line of a script or of outcomes, with its end.
pub const LINE_MOST: usize = 70_000;

/// The longest script: 2^30.
pub const SCRIPT_MOST: u64 = 1_073_741_824;

/// The last moment that a script can name, in milliseconds since 1970-01-01 UTC: the last one of an NTP stamp
/// of era 0 (RFC 5905, 6).
pub const TICK_MOST: u64 = 2_085_978_495_999;

/// The longest session description.
pub const SDP_MOST: usize = 16_384;

/// The longest line of a session description.
pub const SDP_LINE_MOST: usize = 2_048;
