ghost use Rattle.std.specs.Prelude.{◌≡◌, IfOk};

use sg_base::{Address, Failed, Octets, PAD_MOST, Pad};
use sg_edge::{
    Clock, Link, MemSink, MemSource, Noise, Receipt, RngNoise, Sink, Source, StdSink, StdSource,
    SureSink, SystemRng, UdpLink, WallClock, write_all,
};
use std::alloc::Global;
use std::io;
use std::io::{ErrorKind, Read, Write};
use std::net::{Ipv4Addr, Net, SocketAddr, SocketAddrV4, UdpSocket};
use std::process::Abort;
use std::random::RandomSource;
use std::time::SystemTime;

/// A reader and writer whose every call fails in this way, or takes and gives nothing.
#[derive(Drop)]
struct Broken {
    kind: Option<ErrorKind>,
}

impl Broken {
    fn answer(&self) -> io::Result<usize>
        ensures { IfOk result (λ n. n ≡ 0) }
    {
        match self.kind {
            Some(kind) => Err(io::Error::from(kind)),
            None => Ok(0),
        }
    }
}

impl Read for Broken {
    fn read(&mut self, _: &mut [u8]) -> io::Result<usize> {
        self.answer()
    }
}

impl Write for Broken {
    fn write(&mut self, _: &[u8]) -> io::Result<usize> {
        self.answer()
    }

    fn flush(&mut self) -> io::Result<()> {
        match self.kind {
            Some(kind) => Err(io::Error::from(kind)),
            None => Ok(()),
        }
    }
}

/// A reader that gives one octet, and a writer that takes one, in every third call; the other two are
/// interrupted and would have to wait.
#[derive(Drop)]
struct Halting<'a> {
    calls: u64,
    octets: &'a mut Vec<u8>,
}

impl Halting<'_> {
    /// Whether this call passes an octet.
    fn turn(&mut self) -> io::Result<()> {
        self.calls = self.calls.saturating_add(1);
        match self.calls % 3 {
            1 => Err(io::Error::from(ErrorKind::Interrupted)),
            2 => Err(io::Error::from(ErrorKind::WouldBlock)),
            _ => Ok(()),
        }
    }
}

impl Read for Halting<'_> {
    fn read(&mut self, buf: &mut [u8]) -> io::Result<usize> {
        self.turn()?;
        match (buf.is_empty(), self.octets.pop()) {
            (false, Some(octet)) => {
                buf[0] = octet;
                Ok(1)
            }
            _ => Ok(0),
        }
    }
}

impl Write for Halting<'_> {
    fn write(&mut self, buf: &[u8]) -> io::Result<usize> {
        self.turn()?;
        if buf.is_empty() {
            return Ok(0);
        }
        self.octets.push(buf[0])?;
        Ok(1)
    }

    fn flush(&mut self) -> io::Result<()> {
        self.turn()
    }
}

/// A writer that takes one octet, and passes it on once it is asked to.
#[derive(Drop)]
struct Holding<'a> {
    held: Option<u8>,
    octets: &'a mut Vec<u8>,
}

impl Write for Holding<'_> {
    fn write(&mut self, buf: &[u8]) -> io::Result<usize> {
        if buf.is_empty() || self.held.is_some() {
            return Ok(0);
        }
        self.held = Some(buf[0]);
        Ok(1)
    }

    fn flush(&mut self) -> io::Result<()> {
        if let Some(octet) = self.held.take() {
            self.octets.push(octet)?;
        }
        Ok(())
    }
}

/// The answer of one read of at most four octets: the octets, or none where it failed.
fn one_read<S: Source>(source: &mut S) -> Option<([u8; 4], usize)> {
    let mut part = [0; 4];
    match source.read(&mut part) {
        Ok(count) => Some((part, count)),
        Err(Failed) => None,
    }
}

/// The answers of reads, one after another, are these.
fn reads<S: Source>(rt: &impl Abort, source: &mut S, answers: &[Option<([u8; 4], usize)>]) {
    for answer in answers {
        assert!(rt; one_read(source) == *answer);
    }
}

#[test]
fn source_in_memory(rt: HostRuntime) {
    let octets = Octets::copy_of(rt.alloc(), b"abcdef").expect(&rt, "memory");
    let mut source = MemSource::make(octets, Vec::new(rt.alloc()));
    reads(
        &rt,
        &mut source,
        &[Some((*b"abcd", 4)), Some((*b"ef\0\0", 2))],
    );
}

#[test]
fn sink_in_memory(rt: HostRuntime) {
    let mut sink = MemSink::make(rt.alloc(), Vec::new(rt.alloc()));
    assert!(rt; write_all(&mut sink, b"abc") == Ok(()));
    assert!(rt; sink.written() == Some(b"abc".as_slice()));
}

#[test]
fn sure_sink_in_memory(rt: HostRuntime) {
    let mut sink = SureSink::make(rt.alloc());
    assert!(rt; write_all(&mut sink, b"abc") == Ok(()));
    assert!(rt; sink.written() == Some(b"abc".as_slice()));
}

/// What reads of `abcde` answer.
const FIVE: [Option<([u8; 4], usize)>; 3] = [
    Some((*b"abcd", 4)),
    Some((*b"e\0\0\0", 1)),
    Some(([0; 4], 0)),
];

/// A sink of the system over these octets takes three.
fn takes_three(rt: &(impl Abort + std::rt::Clock), octets: &mut Vec<u8>) {
    let mut sink = StdSink::make(octets, rt);
    assert!(rt; write_all(&mut sink, b"abc") == Ok(()));
}

/// A sink of the system has its writer pass on what it holds, once it is asked to.
fn passes_one_on(rt: &(impl Abort + std::rt::Clock), octets: &mut Vec<u8>) {
    let held = None;
    let mut sink = StdSink::make(Holding { held, octets }, rt);
    assert!(rt; write_all(&mut sink, b"a") == Ok(()));
    assert!(rt; sink.flush() == Ok(()));
}

/// A source and a sink of the system fail, whose reader and writer do so.
fn fail(rt: &(impl Abort + std::rt::Clock), kind: ErrorKind) {
    let kind = Some(kind);
    assert!(rt; StdSink::make(Broken { kind }, rt).flush() == Err(Failed));
    assert!(rt; one_read(&mut StdSource::make(Broken { kind }, rt)) == None);
    assert!(rt; write_all(&mut StdSink::make(Broken { kind }, rt), b"abc") == Err(Failed));
}

#[test]
fn forms_of_the_system(rt: HostRuntime) {
    reads(&rt, &mut StdSource::make(b"abcde".as_slice(), &rt), &FIVE);
    let mut octets = Vec::new(rt.alloc());
    takes_three(&rt, &mut octets);
    assert!(rt; octets.as_slice() == b"abc".as_slice());
    passes_one_on(&rt, &mut octets);
    assert!(rt; octets.as_slice() == b"abca".as_slice());
}

#[test]
fn forms_of_the_system_that_fail(rt: HostRuntime) {
    fail(&rt, ErrorKind::BrokenPipe);
    let mut full = StdSink::make(Broken { kind: None }, &rt);
    assert!(rt; write_all(&mut full, b"abc") == Err(Failed));
}

/// A sink of the system takes these octets, though each call halts twice.
fn takes_in_the_end(rt: &(impl Abort + std::rt::Clock), octets: &mut Vec<u8>, part: &[u8]) {
    let mut sink = StdSink::make(Halting { calls: 0, octets }, rt);
    assert!(rt; write_all(&mut sink, part) == Ok(()));
    assert!(rt; sink.flush() == Ok(()));
}

/// A source of the system gives the last two of three octets, though each call halts twice.
fn gives_two_in_the_end(rt: &(impl Abort + std::rt::Clock), octets: &mut Vec<u8>) {
    let mut source = StdSource::make(Halting { calls: 0, octets }, rt);
    let two = [Some((*b"c\0\0\0", 1)), Some((*b"b\0\0\0", 1))];
    reads(rt, &mut source, &two);
}

#[test]
fn calls_made_again(rt: HostRuntime) {
    let mut octets = Vec::new(rt.alloc());
    takes_in_the_end(&rt, &mut octets, b"abc");
    assert!(rt; octets.as_slice() == b"abc".as_slice());
    gives_two_in_the_end(&rt, &mut octets);
}

/// More waits than a test has seconds: each is a millisecond.
const MANY: [u8; 100] = [7; 100];

#[test]
fn waits_are_short(rt: HostRuntime) {
    let mut octets = Vec::new(rt.alloc());
    takes_in_the_end(&rt, &mut octets, &MANY);
    assert!(rt; octets.as_slice() == MANY.as_slice());
}

fn got(port: u16, from: Address) -> Result<Receipt, Failed> {
    Ok(Receipt::Got { port, from })
}

/// A socket of the system at a port of its own, and that port.
fn socket_of_its_own(rt: &(impl Abort + Net)) -> (UdpSocket, Address) {
    let any = SocketAddr::V4(SocketAddrV4::new(Ipv4Addr::new(127, 0, 0, 1), 0));
    let socket = UdpSocket::bind(rt, any).expect(rt, "a socket");
    let port = socket.local_addr().expect(rt, "its address").port();
    (socket, at_home(port))
}

fn at_home(port: u16) -> Address {
    let ip = [127, 0, 0, 1];
    Address { ip, port }
}

/// Binds a port of the link's own, which the system gave a moment before.
fn bind_one<L: Link>(rt: &(impl Abort + Net), link: &mut L) -> Address {
    let mut bound = None;
    for _ in 0..100 {
        let (socket, home) = socket_of_its_own(rt);
        drop(socket);
        if link.bind(home.port).is_ok() {
            bound = Some(home);
            break;
        }
    }
    bound.expect(rt, "a port")
}

/// The next datagram, for which the link is asked up to a thousand times.
fn next_receipt<L: Link>(link: &mut L, pad: &mut Pad) -> Result<Receipt, Failed> {
    for _ in 0..1000 {
        match link.receive(pad) {
            Ok(Receipt::Nothing) => {}
            receipt => return receipt,
        }
    }
    Ok(Receipt::Nothing)
}

/// A datagram goes from one port of the link to another.
fn passes<L: Link>(
    rt: &impl Abort,
    link: &mut L,
    pad: &mut Pad,
    ends: (Address, Address),
    octets: &[u8],
) {
    let (near, far) = ends;
    assert!(rt; link.send(near.port, far, octets) == Ok(()));
    assert!(rt; next_receipt(link, pad) == got(far.port, near));
    assert!(rt; pad.octets() == octets);
}

/// Datagrams go from one port to another, each once.
fn passes_each<L: Link>(rt: &(impl Abort + Net), link: &mut L, pad: &mut Pad) {
    let ends = (bind_one(rt, link), bind_one(rt, link));
    assert!(rt; link.receive(pad) == Ok(Receipt::Nothing));
    for octets in [b"first".as_slice(), b"", b"third"] {
        passes(rt, link, pad, ends, octets);
    }
    assert!(rt; link.receive(pad) == Ok(Receipt::Nothing));
}

#[test]
fn datagrams_of_the_system(rt: HostRuntime) {
    let mut pad = Pad::make(rt.alloc()).expect(&rt, "memory");
    let mut link = UdpLink::make(rt.alloc(), &rt);
    passes_each(&rt, &mut link, &mut pad);
}

/// Sends a datagram as long as can be to a port; from where, and how many octets went.
fn send_long(rt: &(impl Abort + Net), alloc: Global, port: u16) -> (Address, usize) {
    let (socket, home) = socket_of_its_own(rt);
    let long = vec![in alloc; 9u8; 65507].expect(rt, "memory");
    let to = SocketAddr::V4(SocketAddrV4::new(Ipv4Addr::new(127, 0, 0, 1), port));
    let sent = socket.send_to(&long, to).expect(rt, "sent");
    (home, sent)
}

/// A longer datagram than a pad has room for is cut to what it has.
fn cuts_a_long_one<L: Link>(rt: &(impl Abort + Net), alloc: Global, link: &mut L, pad: &mut Pad) {
    let near = bind_one(rt, link);
    let (home, sent) = send_long(rt, alloc, near.port);
    assert!(rt; sent == 65507);
    assert!(rt; next_receipt(link, pad) == got(near.port, home));
    assert!(rt; pad.octets() == [9; PAD_MOST].as_slice());
    assert!(rt; link.receive(pad) == Ok(Receipt::Nothing));
}

#[test]
fn a_long_datagram_of_the_system(rt: HostRuntime) {
    let mut pad = Pad::make(rt.alloc()).expect(&rt, "memory");
    let mut link = UdpLink::make(rt.alloc(), &rt);
    cuts_a_long_one(&rt, rt.alloc(), &mut link, &mut pad);
}

/// A port is bound once, and given up as often as one likes.
fn holds_a_port<L: Link>(rt: &(impl Abort + Net), link: &mut L, other: Address) {
    assert!(rt; link.bind(other.port) == Err(Failed));
    let home = bind_one(rt, link);
    assert!(rt; link.bind(home.port) == Err(Failed));
    assert!(rt; link.unbind(home.port) == Ok(()));
    assert!(rt; link.unbind(home.port) == Ok(()));
    assert!(rt; link.send(home.port, other, b"x") == Err(Failed));
}

/// More ports than a process has descriptors are bound, one after another.
fn holds_many_ports<L: Link>(rt: &(impl Abort + Net), link: &mut L) {
    for _ in 0..1200 {
        let home = bind_one(rt, link);
        assert!(rt; link.unbind(home.port) == Ok(()));
    }
}

#[test]
fn ports_of_the_system(rt: HostRuntime) {
    let (_socket, taken) = socket_of_its_own(&rt);
    let mut link = UdpLink::make(rt.alloc(), &rt);
    holds_a_port(&rt, &mut link, taken);
}

#[test]
fn many_ports_of_the_system(rt: HostRuntime) {
    let mut link = UdpLink::make(rt.alloc(), &rt);
    holds_many_ports(&rt, &mut link);
}

/// A random source that fails.
#[derive(Drop)]
struct Dry;

impl RandomSource for Dry {
    fn fill_bytes(&self, _: &mut [u8]) -> io::Result<()> {
        Err(io::Error::from(ErrorKind::Unsupported))
    }
}

/// The milliseconds since 1970 by the system itself.
fn system_millis(rt: &(impl Abort + std::rt::Clock)) -> u128 {
    let now = SystemTime::now(rt).expect(rt, "a moment");
    let since = now.duration_since(SystemTime::UNIX_EPOCH);
    since.expect(rt, "a moment since 1970").as_millis()
}

/// The clock tells a moment between two of the system's own.
#[test]
fn time_of_the_system(rt: HostRuntime) {
    let earlier = system_millis(&rt);
    let now = WallClock::make(&rt).now().expect(&rt, "a moment");
    let later = system_millis(&rt);
    assert!(rt; earlier <= u128::from(now) && u128::from(now) <= later);
}

#[test]
fn noise_that_fails(rt: HostRuntime) {
    let mut part = [0; 2];
    assert!(rt; RngNoise::make(SystemRng(Dry)).draw(&mut part) == Err(Failed));
}

/// The link listens at 127.0.0.1 alone: at another address the port is free.
fn is_free_elsewhere<L: Link>(rt: &(impl Abort + Net), link: &mut L) {
    let home = bind_one(rt, link);
    let other = SocketAddr::V4(SocketAddrV4::new(Ipv4Addr::new(127, 0, 0, 2), home.port));
    let socket = UdpSocket::bind(rt, other).expect(rt, "a socket");
    let address = socket.local_addr().expect(rt, "its address");
    assert!(rt; address.port() == home.port);
}

#[test]
fn other_addresses_are_free(rt: HostRuntime) {
    let mut link = UdpLink::make(rt.alloc(), &rt);
    is_free_elsewhere(&rt, &mut link);
}

/// A far end at another address of the loopback: a datagram from there is told as of there, and one to there arrives.
fn knows_hosts<L: Link>(rt: &(impl Abort + Net), link: &mut L, pad: &mut Pad) {
    let near = bind_one(rt, link);
    let any = SocketAddr::V4(SocketAddrV4::new(Ipv4Addr::new(127, 0, 0, 2), 0));
    let socket = UdpSocket::bind(rt, any).expect(rt, "a socket");
    let port = socket.local_addr().expect(rt, "its address").port();
    let ip = [127, 0, 0, 2];
    let far = Address { ip, port };
    let to = SocketAddr::V4(SocketAddrV4::new(Ipv4Addr::new(127, 0, 0, 1), near.port));
    assert!(rt; socket.send_to(b"there", to).expect(rt, "sent") == 5);
    assert!(rt; next_receipt(link, pad) == got(near.port, far));
    assert!(rt; link.send(near.port, far, b"back") == Ok(()));
    socket.set_nonblocking(true).expect(rt, "no waiting");
    let mut part = [0; 8];
    assert!(rt; socket.recv(&mut part).expect(rt, "a datagram") == 4);
}

#[test]
fn hosts_of_the_system(rt: HostRuntime) {
    let mut pad = Pad::make(rt.alloc()).expect(&rt, "memory");
    let mut link = UdpLink::make(rt.alloc(), &rt);
    knows_hosts(&rt, &mut link, &mut pad);
}

/// The port of the next datagram; 0 where none came.
fn next_port<L: Link>(link: &mut L, pad: &mut Pad) -> u16 {
    match next_receipt(link, pad) {
        Ok(Receipt::Got { port, .. }) => port,
        _ => 0,
    }
}

/// One octet is sent from a port to each of these.
fn sends<L: Link>(rt: &impl Abort, link: &mut L, from: Address, addresses: &[Address]) {
    for to in addresses {
        assert!(rt; link.send(from.port, *to, b"x") == Ok(()));
    }
}

/// Two ports that both have datagrams take turns, sixteen datagrams each.
fn takes_turns<L: Link>(rt: &(impl Abort + Net), link: &mut L, pad: &mut Pad) {
    let near = bind_one(rt, link);
    let far = bind_one(rt, link);
    for _ in 0..17 {
        sends(rt, link, near, &[near, far]);
    }
    let first = next_port(link, pad);
    for _ in 1..16 {
        assert!(rt; next_port(link, pad) == first);
    }
    let second = next_port(link, pad);
    assert!(rt; first != second);
    assert!(rt; first != 0 && second != 0);
}

#[test]
fn ports_take_turns(rt: HostRuntime) {
    let mut pad = Pad::make(rt.alloc()).expect(&rt, "memory");
    let mut link = UdpLink::make(rt.alloc(), &rt);
    takes_turns(&rt, &mut link, &mut pad);
}

/// A port that is given up takes nothing from the others, and each keeps what waits.
fn leaves_the_others<L: Link>(rt: &(impl Abort + Net), link: &mut L, pad: &mut Pad) {
    let near = bind_one(rt, link);
    let far = bind_one(rt, link);
    sends(rt, link, near, &[near, far, near, far, near, far]);
    assert!(rt; next_port(link, pad) != 0);
    assert!(rt; link.unbind(near.port) == Ok(()));
    assert!(rt; next_port(link, pad) == far.port);
    assert!(rt; next_port(link, pad) == far.port);
}

#[test]
fn a_port_given_up_leaves_the_others(rt: HostRuntime) {
    let mut pad = Pad::make(rt.alloc()).expect(&rt, "memory");
    let mut link = UdpLink::make(rt.alloc(), &rt);
    leaves_the_others(&rt, &mut link, &mut pad);
}

/// Of eight draws each place is once not 0.
#[test]
fn noise_has_each_place(rt: HostRuntime) {
    let mut noise = RngNoise::make(SystemRng(&rt));
    let mut seen = [0; 304];
    for _ in 0..8 {
        let mut part = [0; 304];
        assert!(rt; noise.draw(&mut part) == Ok(()));
        for i in 0..304 {
            seen[i] |= part[i];
        }
    }
    assert!(rt; seen.iter().all(|octet| *octet != 0));
}

/// The first eight octets of a draw stand nowhere behind them.
#[test]
fn noise_repeats_nothing(rt: HostRuntime) {
    let mut part = [0; 304];
    assert!(rt; RngNoise::make(SystemRng(&rt)).draw(&mut part) == Ok(()));
    for at in 8..297 {
        assert!(rt; part[at..at + 8] != part[..8]);
    }
}

/// A port that always has a datagram keeps no other one from being heard.
fn hears_both<L: Link>(rt: &(impl Abort + Net), link: &mut L, pad: &mut Pad) {
    let near = bind_one(rt, link);
    let far = bind_one(rt, link);
    sends(rt, link, near, &[near, near]);
    assert!(rt; next_port(link, pad) == near.port);
    sends(rt, link, near, &[far]);
    let mut port = near.port;
    for _ in 0..200 {
        if port == near.port {
            sends(rt, link, near, &[near]);
            port = next_port(link, pad);
        }
    }
    assert!(rt; port == far.port);
}

#[test]
fn a_loaded_port_leaves_the_others(rt: HostRuntime) {
    let mut pad = Pad::make(rt.alloc()).expect(&rt, "memory");
    let mut link = UdpLink::make(rt.alloc(), &rt);
    hears_both(&rt, &mut link, &mut pad);
}

/// Binds an even port and the odd one above it.
fn bind_pair<L: Link>(rt: &(impl Abort + Net), link: &mut L) -> (Address, Address) {
    let mut bound = None;
    for _ in 0..100 {
        let even = bind_one(rt, link);
        let odd = at_home(even.port | 1);
        if link.bind(odd.port).is_ok() {
            bound = Some((even, odd));
            break;
        }
    }
    bound.expect(rt, "a pair of ports")
}

/// Datagrams pass between an even port and the odd one above it, both ways.
fn passes_both_ways<L: Link>(rt: &(impl Abort + Net), link: &mut L, pad: &mut Pad) {
    let (even, odd) = bind_pair(rt, link);
    passes(rt, link, pad, (even, odd), b"there");
    passes(rt, link, pad, (odd, even), b"back");
}

#[test]
fn a_pair_of_ports_of_the_system(rt: HostRuntime) {
    let mut pad = Pad::make(rt.alloc()).expect(&rt, "memory");
    let mut link = UdpLink::make(rt.alloc(), &rt);
    passes_both_ways(&rt, &mut link, &mut pad);
}

/// More receives without a datagram than fit into a test if each waits for seconds.
#[test]
fn a_receive_without_a_datagram_is_short(rt: HostRuntime) {
    let mut pad = Pad::make(rt.alloc()).expect(&rt, "memory");
    let mut link = UdpLink::make(rt.alloc(), &rt);
    for _ in 0..50 {
        assert!(rt; link.receive(&mut pad) == Ok(Receipt::Nothing));
    }
}
