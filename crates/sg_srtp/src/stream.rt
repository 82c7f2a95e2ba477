//! What is kept of a source.

ghost use Rattle.std.specs.Prelude.{◌≡◌, ℕ, ◌≤◌, []};
ghost use Rattle.sg_base.specs.declared.addresses.Kind.TheVariants as kind;
ghost use Rattle.sg_states.specs.Streams.{IsStreamOf, StreamStands};

use crate::kinds::{OneKind, Rtcp, Rtp, Typed};
use sg_base::Kind;
use std::marker::PhantomData;

/// A stream of RTP packets: its source, the rollover it starts at, its highest index and its replay list
/// (RFC 3711, 3.2.1). Only `decrypt` and `number` change it.
pub type Stream = Typed<sg_states::Stream, Rtp>;

/// A stream of RTCP packets: it has no rollover, and its highest index has 31 bits (RFC 3711, 3.4).
pub type RtcpStream = Typed<sg_states::Stream, Rtcp>;

impl<K: OneKind> Typed<sg_states::Stream, K> {
    /// The source.
    #[inline(always)]
    pub fn ssrc(&self) -> u32
        ensures { result ≡ self.now.ssrc }
    {
        self.state.ssrc()
    }
}

impl Typed<sg_states::Stream, Rtp> {
    /// A stream of which nothing is done, with a window of 64 to 1,024 indices.
    pub fn fresh(ssrc: u32, roc: u32, window: u16) -> Stream
        requires at_least { 64 ≤ window }
        requires at_most { window ≤ 1024 }
        ensures of { IsStreamOf result kind.Rtp ssrc }
        ensures stands { StreamStands result ssrc roc window [] }
    {
        Typed {
            state: sg_states::Stream::fresh(Kind::Rtp, ssrc, roc, window),
            kind: PhantomData,
        }
    }

    /// The highest index that is done, of 48 bits (RFC 3711, 3.3.1). None before the first packet.
    pub fn highest(&self) -> Option<u64>
        ensures { result ≡ self.now.highest }
    {
        self.state.highest()
    }
}

impl Typed<sg_states::Stream, Rtcp> {
    /// A stream of which nothing is done, with a window of 64 to 1,024 indices.
    pub fn fresh(ssrc: u32, window: u16) -> RtcpStream
        requires at_least { 64 ≤ window }
        requires at_most { window ≤ 1024 }
        ensures of { IsStreamOf result kind.Rtcp ssrc }
        ensures stands { (roc : ℕ) → StreamStands result ssrc roc window [] }
    {
        Typed {
            state: sg_states::Stream::fresh(Kind::Rtcp, ssrc, 0, window),
            kind: PhantomData,
        }
    }

    /// The highest index that is done, of 31 bits (RFC 3711, 3.4). None before the first packet.
    pub fn highest(&self) -> Option<u32>
        ensures { result ≡ self.now.highest }
    {
        match self.state.highest() {
            None => None,
            Some(index) => Some(index as u32),
        }
    }
}

impl Default for Typed<sg_states::Stream, Rtp> {
    fn default() -> Stream {
        Stream::fresh(0, 0, 64)
    }
}

impl Default for Typed<sg_states::Stream, Rtcp> {
    fn default() -> RtcpStream {
        RtcpStream::fresh(0, 64)
    }
}
