//! The command `bridge`.

ghost use Rattle.std.specs.Prelude.{◌≡◌, ◌≤◌, ◌+◌, ◌^◌, ℕ, List};
ghost use Rattle.sg_bridge.specs.Bridge.{IsBridge, IsCompleteBridge};
ghost use Rattle.sg_edge.specs.Told.{Rose};
ghost use Rattle.sg_trace.specs.Causes.{HasFailed};

use crate::player::BridgePlayer;
use sg_base::NoMemory;
use sg_edge::{Noise, Sink, Source};
use sg_trace::{Status, run_script};
use std::alloc::Global;

/// Plays the script of the source: its lines in order, from an empty table, and what they tell is written to the
/// sink. Where two calls are joined, a packet that is opened in the one goes on to the other, and is sealed there or
/// told as lost. In a script of version 2 a tick to its moment comes before a datagram. Where a signal lacks its
/// noise, 304 octets are drawn. It ends with `Done` at the source's end; with `Script` at the first line outside the
/// grammar; with `Read`, `Write` or `Noise` where the source, the sink or the noise fails; or with `NoMemory`. What
/// is told is passed on before a read that may wait, and at the end, of which no clause tells.
/// It isn't inlined, so no other command has its frame.
#[inline(never)]
pub fn bridge<S: Source, K: Sink, N: Noise>(
    alloc: Global,
    source: &mut S,
    sink: &mut K,
    noise: &mut N,
) -> Status
    ensures ran { (octets draws out : List ℕ)
        × IsBridge result
        (record { left = S.left source.old; written = K.written sink.old; drawn = N.given noise.old })
        (record { left = S.left source.new; written = K.written sink.new; drawn = N.given noise.new })
        octets draws out }
    ensures given { (S.left source.new).count ≤ (S.left source.old).count + (2 ^ 30 + 1) }
    ensures read { HasFailed (result ≡ Status.Read) (S.faults source.old) (S.faults source.new) (S.failed source.new) }
    ensures write { HasFailed (result ≡ Status.Write) (K.faults sink.old) (K.faults sink.new) (K.failed sink.new) }
    ensures noise { HasFailed (result ≡ Status.Noise) (N.faults noise.old) (N.faults noise.new) (N.failed noise.new) }
    ensures complete { ¬ Rose (S.faults source.old) (S.faults source.new) → ¬ Rose (K.faults sink.old) (K.faults sink.new) → ¬ Rose (N.faults noise.old) (N.faults noise.new)
        → IsCompleteBridge result (S.left source.old) (S.left source.new) }
{
    match BridgePlayer::make(alloc) {
        Err(NoMemory) => Status::NoMemory,
        Ok(mut player) => run_script(alloc, &mut player, source, sink, noise),
    }
}
