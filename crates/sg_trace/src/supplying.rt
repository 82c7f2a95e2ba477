//! Noise that a script leaves to be drawn.

ghost use Rattle.std.specs.Prelude.{◌≡◌, ℕ, List, IfOk, false};
ghost use Rattle.sg_base.specs.declared.identities.Noise304 as noises;
ghost use Rattle.sg_trace.specs.Causes.{IsCaused};
ghost use Rattle.sg_trace.specs.Supplying.{IsSupplied};
ghost use Rattle.sg_edge.specs.Links.{Added};
ghost use Rattle.sg_gateway.specs.Drawn.{signal_with_noise};
ghost use Rattle.sg_gateway.specs.Events.{signal_lacks_noise};

use crate::status::Status;
use sg_base::{NOISE, Noise304};
use sg_edge::Noise;
use sg_lines::Signal;

/// The signal with its noise: where it lacks it, the next 304 octets are drawn; `Noise` where that fails.
pub fn supply<N: Noise>(noise: &mut N, signal: Signal) -> Result<Signal, Status>
    ensures drew { (draws : List ℕ) × Added (N.given noise.old) (N.given noise.new) draws × IsSupplied result signal draws }
    ensures same { IfOk result (λ s. (drawn : noises.Noise304) × (s ≡ signal_with_noise drawn signal)) }
    ensures ready { IfOk result (λ s. signal_lacks_noise s ≡ false) }
    ensures cause { IsCaused Status.Noise result (N.faults noise.old) (N.faults noise.new) (N.failed noise.new) }
{
    if !lacks_noise(&signal) {
        return Ok(signal);
    }
    let mut drawn = [0; NOISE];
    match noise.draw(&mut drawn) {
        Ok(()) => Ok(with_noise(Noise304(drawn), signal)),
        Err(_) => Err(Status::Noise),
    }
}

/// Whether its noise is to be drawn.
fn lacks_noise(signal: &Signal) -> bool
    ensures { result ≡ signal_lacks_noise signal.now }
{
    match signal {
        Signal::OfferSecure { noise, .. } => noise.is_none(),
        Signal::OfferSdes { noise, .. } => noise.is_none(),
        Signal::OfferMikey { noise, .. } => noise.is_none(),
        Signal::Answer { noise, .. } => noise.is_none(),
        _ => false,
    }
}

/// The signal with this noise, where it has a place for it and none of its own.
fn with_noise(drawn: Noise304, signal: Signal) -> Signal
    ensures { result ≡ signal_with_noise drawn signal }
{
    match signal {
        Signal::OfferSecure { call, noise, text } => Signal::OfferSecure {
            call,
            noise: noise.or(Some(drawn)),
            text,
        },
        Signal::OfferSdes { call, noise, text } => Signal::OfferSdes {
            call,
            noise: noise.or(Some(drawn)),
            text,
        },
        Signal::OfferMikey {
            call,
            peer,
            noise,
            text,
        } => Signal::OfferMikey {
            call,
            peer,
            noise: noise.or(Some(drawn)),
            text,
        },
        Signal::Answer { call, noise, text } => Signal::Answer {
            call,
            noise: noise.or(Some(drawn)),
            text,
        },
        other => other,
    }
}
