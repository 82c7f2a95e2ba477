//! The route of one session's packets through a call.

ghost use Rattle.std.specs.Prelude.{◌≡◌, ◌≤◌, ℕ, length, nat_lt};
ghost use Rattle.sg_gateway.specs.Passing.{taken_from, sent_by};
ghost use Rattle.sg_session.specs.OneSession.{after};
ghost use Rattle.sg_session.specs.Session.{Session};
ghost use Rattle.sg_call.specs.Adding.{opens_route};
ghost use Rattle.sg_call.specs.Handling.{OnDrop, handled_by, handled_by_either, kept_or};
ghost use Rattle.sg_call.specs.Standing.{OpensFor, RouteStandsFor};
ghost use Rattle.sg_media.specs.Either.{if_refused};

use crate::handled::{End, Handled};
use sg_base::{Address, DropCause, PLAIN_MOST, PROTECTED_MOST, Pad};
use sg_gateway::is_same_ip;
use sg_media::{OpenSide, SealSide, Which, receive_either};

/// What opens a session's datagrams, or what seals its packets.
#[derive(Drop)]
pub enum MediaSide {
    Opens(OpenSide),
    Seals(SealSide),
}

/// The route of one session's packets: the port at which its datagrams come, the port on the other side, from
/// which its packets are forwarded, the address to which they go, and the plain side's address.
#[derive(Drop)]
pub struct Route {
    pub port: u16,
    pub out: u16,
    pub to: Address,
    pub plain: Address,
    pub side: MediaSide,
}

impl Route {
    /// Whether it opens.
    pub(crate) fn opens(&self) -> bool
        ensures { result ≡ opens_route self.now }
    {
        match self.side {
            MediaSide::Opens(_) => true,
            MediaSide::Seals(_) => false,
        }
    }

    /// Opens a datagram of at most 4,238 octets, whoever sent it, or seals a packet of at most 4,096 octets from
    /// the plain side's IPv4 address; or hands it back with the first cause why not, and is as it was.
    pub(crate) fn pass(&mut self, from: Address, pad: Pad) -> Handled
        ensures answer { (slot : ℕ) (s : Session) → RouteStandsFor slot self.old s
            → result ≡ handled_by self.old.out self.old.to (kept_or pad (sent_by s (taken_from from pad s))) }
        ensures refused { OnDrop result.end ((result.pad ≡ pad) × (self.new ≡ self.old)) }
        ensures after { (slot : ℕ) (s : Session) → RouteStandsFor slot self.old s → RouteStandsFor slot self.new (after s (taken_from from pad s)) }
    {
        let plain = self.plain;
        let port = self.out;
        let to = self.to;
        match &mut self.side {
            MediaSide::Opens(side) => {
                if is_too_long(&pad) {
                    return Handled {
                        pad,
                        end: End::Dropped(DropCause::TooLong),
                    };
                }
                match side.receive(pad) {
                    Ok(opened) => Handled {
                        pad: opened.pad,
                        end: End::Out { port, to },
                    },
                    Err((pad, cause)) => Handled {
                        pad,
                        end: End::Dropped(cause),
                    },
                }
            }
            MediaSide::Seals(side) => {
                if pad.octets().len() > PLAIN_MOST {
                    return Handled {
                        pad,
                        end: End::Dropped(DropCause::TooLong),
                    };
                }
                if !is_same_ip(from, plain) {
                    return Handled {
                        pad,
                        end: End::Dropped(DropCause::SourceUnknown),
                    };
                }
                match side.send(pad) {
                    Ok(sealed) => Handled {
                        pad: sealed.pad,
                        end: End::Out { port, to },
                    },
                    Err((pad, cause)) => Handled {
                        pad,
                        end: End::Dropped(cause),
                    },
                }
            }
        }
    }
}

/// Whether a datagram has more octets than any that is opened.
fn is_too_long(pad: &Pad) -> bool
    ensures { result ≡ nat_lt 4238 (length pad.now) }
{
    pad.octets().len() > PROTECTED_MOST
}

/// Opens a datagram of at most 4,238 octets by the current generation's route, or where that refuses it by the earlier
/// one's at the same port; or hands it back with the first cause of the current one, and both are as they were.
pub(crate) fn pass_either(
    current: &mut Route,
    earlier: &mut Route,
    from: Address,
    pad: Pad,
) -> Handled
    ensures answer { (slot : ℕ) (s e : Session) → OpensFor slot current.old s → OpensFor slot earlier.old e
        → result ≡ handled_by_either current.old.out current.old.to earlier.old.out earlier.old.to pad (sent_by s (taken_from from pad s)) (sent_by e (taken_from from pad e)) }
    ensures refused { OnDrop result.end ((result.pad ≡ pad) × (current.new ≡ current.old) × (earlier.new ≡ earlier.old)) }
    ensures current { (slot : ℕ) (s : Session) → OpensFor slot current.old s → RouteStandsFor slot current.new (after s (taken_from from pad s)) }
    ensures earlier { (slot : ℕ) (s e : Session) → OpensFor slot current.old s → OpensFor slot earlier.old e
        → RouteStandsFor slot earlier.new (after e (if_refused (taken_from from pad s) (taken_from from pad e))) }
{
    let forward = End::Out {
        port: current.out,
        to: current.to,
    };
    let forward_earlier = End::Out {
        port: earlier.out,
        to: earlier.to,
    };
    match &mut current.side {
        // No port is both a session's that opens and a session's that seals.
        MediaSide::Seals(_) => current.pass(from, pad),
        MediaSide::Opens(side) => match &mut earlier.side {
            MediaSide::Seals(_) => current.pass(from, pad),
            MediaSide::Opens(other) => {
                if is_too_long(&pad) {
                    return Handled {
                        pad,
                        end: End::Dropped(DropCause::TooLong),
                    };
                }
                match receive_either(side, other, pad) {
                    Ok((Which::Current, opened)) => Handled {
                        pad: opened.pad,
                        end: forward,
                    },
                    Ok((Which::Earlier, opened)) => Handled {
                        pad: opened.pad,
                        end: forward_earlier,
                    },
                    Err((pad, cause)) => Handled {
                        pad,
                        end: End::Dropped(cause),
                    },
                }
            }
        },
    }
}
