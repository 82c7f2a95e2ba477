//! Datagrams of the system, on sockets of 127.0.0.1. The link tells no list.

ghost use Rattle.std.specs.Prelude.{◌≡◌, ◌≤◌, ◌∷◌, [], ◌++◌, ℕ, List, None, length, IfNone, IfOk, IfSome, IsSome, OnErr, OnOk, OnSome};
ghost use Rattle.std.specs.Result.{is_ok};
ghost use Rattle.sg_edge.specs.Links.{Bind, Called, Receive, Send, Unbind, none_called, received};
ghost use Rattle.sg_edge.specs.Ports.{AreAsked, AreSame, AreSameBut, IsAsked, IsTaken, socket_at, without};
ghost use Rattle.sg_edge.specs.Told.{HasCause, Rose};

use crate::link::{CallCounts, Link, Receipt, raise};
use crate::pace::Pace;
use crate::ports::Ports;
use crate::standard::is_passing;
use mio::net::UdpSocket;
use mio::{Events, Interest, Poll, Token};
use sg_base::{Address, Failed, PAD_MOST, Pad};
use std::alloc::Global;
use std::io::ErrorKind;
use std::net::{Ipv4Addr, Net, SocketAddr, SocketAddrV4};
use std::thread;
use std::time::{Clock, Duration};

/// How many milliseconds a receive waits for a datagram; the system wakes it within another one.
const WAIT_MILLIS: u64 = 4;

/// So many sockets one look at the system tells of at most.
const EVENTS_MOST: usize = 256;

/// After so many datagrams the system is asked again which sockets have some.
const LOOK_AFTER: u32 = 64;

/// What the system tells of the sockets: which have a datagram.
#[derive(Drop)]
struct Watch {
    poll: Poll,
    events: Events,
}

impl Watch {
    /// Watches no socket. None out of memory, or where the system gives no descriptor for it.
    fn make(alloc: Global, net: &impl Net) -> Option<Watch> {
        let poll = Poll::new(net).ok()?;
        let events = Events::with_capacity(alloc, EVENTS_MOST).ok()?;
        Some(Watch { poll, events })
    }
}

/// The sockets of the ports that are bound. Those that may have a datagram, as the system said, are asked in
/// turn, up to sixteen datagrams each; the others aren't asked.
#[derive(Drop)]
pub struct UdpLink<R: Net + Clock + Drop> {
    alloc: Global,
    net: R,
    watch: Option<Watch>,
    ports: Ports,
    given: u32,
    pace: Pace,
    part: [u8; PAD_MOST],
    counts: CallCounts,
    faults: u64,
}

fn local(port: u16) -> SocketAddr {
    SocketAddr::V4(SocketAddrV4::new(Ipv4Addr::new(127, 0, 0, 1), port))
}

/// The next datagram of a socket and where it came from; none where it has none.
fn datagram_of(socket: &UdpSocket, part: &mut [u8]) -> Result<Option<(usize, SocketAddr)>, Failed>
    ensures { IfOk result (λ got. IfSome got (λ d. d.0 ≤ length part.new)) }
{
    for _ in 0..u64::MAX {
        match socket.recv_from(part) {
            Ok(got) => return Ok(Some(got)),
            Err(error) => match error.kind() {
                ErrorKind::WouldBlock => return Ok(None),
                ErrorKind::Interrupted => {}
                _ => return Err(Failed),
            },
        }
    }
    Err(Failed)
}

/// Sends a datagram, again where the call was interrupted or would have had to wait.
fn send_again(socket: &UdpSocket, part: &[u8], to: SocketAddr) -> Result<(), Failed> {
    for _ in 0..u64::MAX {
        match socket.send_to(part, to) {
            Ok(_) => return Ok(()),
            Err(error) => {
                if !is_passing(&error) {
                    return Err(Failed);
                }
            }
        }
        thread::yield_now();
    }
    Err(Failed)
}

/// The ports of which the system tells wait from now on, behind the others.
fn join_all(ports: &mut Ports, events: &Events)
    ensures bound { AreSame ports.old.bound ports.new.bound }
    ensures behind { (more : List ℕ) × (ports.new.waiting.items ≡ ports.old.waiting.items ++ more) }
    ensures row { ports.new.row ≡ ports.old.row }
{
    for event in events {
        if let Ok(port) = u16::try_from(event.token().0) {
            ports.join(port);
        }
    }
}

impl<R: Net + Clock + Drop> UdpLink<R> {
    /// A link without ports, on which no call was made. It takes a descriptor for readiness, and memory for
    /// what the system tells, at its first bind or receive: no clause tells of them.
    pub fn make(alloc: Global, net: R) -> UdpLink<R>
        ensures bound { (port : ℕ) → socket_at result.ports.bound port ≡ None }
        ensures waiting { result.ports.waiting.items ≡ [] }
        ensures row { result.ports.row ≡ 0 }
        ensures counts { result.counts ≡ none_called }
    {
        UdpLink {
            alloc,
            net,
            watch: None,
            ports: Ports::new(alloc),
            given: 0,
            pace: Pace::new(),
            part: [0; PAD_MOST],
            counts: CallCounts::new(),
            faults: 0,
        }
    }

    fn fail(&mut self) -> Failed
        ensures later { self.old.faults ≤ self.new.faults }
        ensures rose { Rose self.old.faults self.new.faults }
        ensures counts { self.new.counts ≡ self.old.counts }
        ensures ports { self.new.ports ≡ self.old.ports }
    {
        self.faults = self.faults.saturating_add(1);
        Failed
    }

    /// Has the system tell of the sockets from now on.
    fn begin(&mut self) -> Option<()>
        ensures faults { self.new.faults ≡ self.old.faults }
        ensures counts { self.new.counts ≡ self.old.counts }
        ensures ports { self.new.ports ≡ self.old.ports }
    {
        if self.watch.is_none() {
            self.watch = Some(Watch::make(self.alloc, &self.net)?);
        }
        Some(())
    }

    /// A socket at the port, which the system watches.
    fn open(&mut self, port: u16) -> Option<()>
        ensures faults { self.new.faults ≡ self.old.faults }
        ensures counts { self.new.counts ≡ self.old.counts }
        ensures bound { OnSome result (IsSome (socket_at self.new.ports.bound port)) }
        ensures none { IfNone result (AreSame self.old.ports.bound self.new.ports.bound) }
        ensures others { AreSameBut port self.old.ports.bound self.new.ports.bound }
        ensures waiting { self.new.ports.waiting.items ≡ self.old.ports.waiting.items }
        ensures row { self.new.ports.row ≡ self.old.ports.row }
    {
        if self.ports.socket(port).is_some() {
            return None;
        }
        self.begin()?;
        let watch = self.watch.as_ref()?;
        let mut socket = UdpSocket::bind(&self.net, local(port)).ok()?;
        let token = Token(usize::from(port));
        watch
            .poll
            .registry()
            .register(&mut socket, token, Interest::READABLE)
            .ok()?;
        self.ports.add(port, socket).ok()
    }

    /// Asks the system which sockets have a datagram; these wait behind the others.
    fn look(&mut self, wait: Duration) -> Option<()>
        ensures faults { self.new.faults ≡ self.old.faults }
        ensures counts { self.new.counts ≡ self.old.counts }
        ensures bound { AreSame self.old.ports.bound self.new.ports.bound }
        ensures behind { (more : List ℕ) × (self.new.ports.waiting.items ≡ self.old.ports.waiting.items ++ more) }
        ensures row { self.new.ports.row ≡ self.old.ports.row }
    {
        self.given = 0;
        self.begin()?;
        let watch = self.watch.as_mut()?;
        if let Err(error) = watch.poll.poll(&mut watch.events, Some(wait)) {
            if !is_passing(&error) {
                return None;
            }
        }
        join_all(&mut self.ports, &watch.events);
        Some(())
    }

    /// Asks the system behind so many datagrams, though some wait.
    #[tactic(auto, using(crate::proofs::Waiting::none_behind))]
    fn look_between(&mut self) -> Option<()>
        ensures faults { self.new.faults ≡ self.old.faults }
        ensures counts { self.new.counts ≡ self.old.counts }
        ensures bound { AreSame self.old.ports.bound self.new.ports.bound }
        ensures behind { (more : List ℕ) × (self.new.ports.waiting.items ≡ self.old.ports.waiting.items ++ more) }
        ensures row { self.new.ports.row ≡ self.old.ports.row }
    {
        if self.given < LOOK_AFTER {
            return Some(());
        }
        self.look(Duration::from_millis(0))
    }

    /// Nothing waits: rests where many datagrams come, so that those of a rest are taken at one waking.
    fn rest(&mut self)
        ensures faults { self.new.faults ≡ self.old.faults }
        ensures counts { self.new.counts ≡ self.old.counts }
        ensures ports { self.new.ports ≡ self.old.ports }
    {
        let rest = self.pace.rest(&self.net);
        if !rest.is_zero() {
            thread::sleep(&self.net, rest);
        }
    }

    /// Asks the socket whose turn it is: the datagram, or that it has none.
    fn ask(&mut self, pad: &mut Pad) -> Result<Receipt, Failed>
        ensures cause { HasCause self.old.faults self.new.faults result }
        ensures counts { self.new.counts ≡ self.old.counts }
        ensures bound { AreSame self.old.ports.bound self.new.ports.bound }
        ensures asked { IsAsked result self.old.ports.row self.old.ports.waiting.items self.new.ports.row self.new.ports.waiting.items }
    {
        let Some((port, socket)) = self.ports.first() else {
            return Ok(Receipt::Nothing);
        };
        match datagram_of(socket, &mut self.part) {
            Err(Failed) => {
                self.ports.turn();
                Err(self.fail())
            }
            Ok(Some((count, SocketAddr::V4(from)))) => {
                self.ports.serve();
                self.given = self.given.saturating_add(1);
                self.pace.count();
                let _ = pad.fill(&self.part[..count]);
                let from = Address {
                    ip: from.ip().octets(),
                    port: from.port(),
                };
                Ok(Receipt::Got { port, from })
            }
            Ok(_) => {
                self.ports.leave();
                Ok(Receipt::Nothing)
            }
        }
    }

    /// Asks each socket that may have a datagram once, up to the first that has one.
    fn ask_all(&mut self, pad: &mut Pad) -> Result<Receipt, Failed>
        ensures cause { HasCause self.old.faults self.new.faults result }
        ensures counts { self.new.counts ≡ self.old.counts }
        ensures bound { AreSame self.old.ports.bound self.new.ports.bound }
        ensures asked { AreAsked result self.old.ports.row self.old.ports.waiting.items self.new.ports.row self.new.ports.waiting.items }
    {
        for _ in 0..self.ports.count() {
            match self.ask(pad) {
                Err(Failed) => return Err(Failed),
                Ok(Receipt::Got { port, from }) => return Ok(Receipt::Got { port, from }),
                Ok(Receipt::Nothing) => {}
            }
        }
        Ok(Receipt::Nothing)
    }
}

impl<R: Net + Clock + Drop> Link for UdpLink<R> {
    ghost told = { λ l. record { told = None; counts = l.counts } };

    ghost faults = { λ l. l.faults };

    fn bind(&mut self, port: u16) -> Result<(), Failed>
        ensures told { Called (record { told = None; counts = self.old.counts }) (record { told = None; counts = self.new.counts }) (Bind port (is_ok result) ∷ []) }
        ensures cause { HasCause self.old.faults self.new.faults result }
        ensures bound { OnOk result (IsSome (socket_at self.new.ports.bound port)) }
        ensures err { OnErr result (AreSame self.old.ports.bound self.new.ports.bound) }
        ensures others { AreSameBut port self.old.ports.bound self.new.ports.bound }
        ensures waiting { self.new.ports.waiting.items ≡ self.old.ports.waiting.items }
        ensures row { self.new.ports.row ≡ self.old.ports.row }
    {
        raise(&mut self.counts.binds);
        match self.open(port) {
            Some(()) => Ok(()),
            None => Err(self.fail()),
        }
    }

    fn unbind(&mut self, port: u16) -> Result<(), Failed>
        ensures told { Called (record { told = None; counts = self.old.counts }) (record { told = None; counts = self.new.counts }) (Unbind port (is_ok result) ∷ []) }
        ensures cause { HasCause self.old.faults self.new.faults result }
        ensures gone { socket_at self.new.ports.bound port ≡ None }
        ensures others { AreSameBut port self.old.ports.bound self.new.ports.bound }
        ensures waiting { self.new.ports.waiting.items ≡ without port self.old.ports.waiting.items }
        ensures row { self.new.ports.row ≡ self.old.ports.row }
    {
        raise(&mut self.counts.unbinds);
        self.ports.remove(port);
        Ok(())
    }

    fn receive(&mut self, pad: &mut Pad) -> Result<Receipt, Failed>
        ensures told { Called (record { told = None; counts = self.old.counts }) (record { told = None; counts = self.new.counts }) (Receive (received result pad.new) ∷ []) }
        ensures cause { HasCause self.old.faults self.new.faults result }
        ensures bound { AreSame self.old.ports.bound self.new.ports.bound }
        ensures taken { IsTaken result self.old.ports.row self.old.ports.waiting.items self.new.ports.row self.new.ports.waiting.items }
    {
        raise(&mut self.counts.receives);
        if self.look_between().is_none() {
            return Err(self.fail());
        }
        match self.ask_all(pad) {
            Err(Failed) => return Err(Failed),
            Ok(Receipt::Nothing) => {}
            Ok(got) => return Ok(got),
        }
        self.rest();
        if self.look(Duration::from_millis(WAIT_MILLIS)).is_none() {
            return Err(self.fail());
        }
        self.ask_all(pad)
    }

    fn send(&mut self, port: u16, to: Address, part: &[u8]) -> Result<(), Failed>
        ensures told { Called (record { told = None; counts = self.old.counts }) (record { told = None; counts = self.new.counts }) (Send port to part.now (is_ok result) ∷ []) }
        ensures same { self.new.faults ≡ self.old.faults }
        ensures ports { self.new.ports ≡ self.old.ports }
    {
        raise(&mut self.counts.sends);
        let [a, b, c, d] = to.ip;
        let to = SocketAddr::V4(SocketAddrV4::new(Ipv4Addr::new(a, b, c, d), to.port));
        if let Some(socket) = self.ports.socket(port) {
            if let Ok(()) = send_again(socket, part, to) {
                return Ok(());
            }
        }
        raise(&mut self.counts.unsent);
        Err(Failed)
    }
}
