//! The ports that a link has bound, and those that wait to be asked.

ghost use Rattle.std.specs.Prelude.{◌≡◌, ◌<◌, ◌≤◌, ◌∷◌, [], ℕ, List, None, Some, IfNone, IfSome, OnErr, OnOk, drop, length};
ghost use Rattle.std.specs.BTreeMap.{btree_map_len, get};
ghost use Rattle.std.specs.VecDeque.{deque_capacity};
ghost use Rattle.std.specs.Option.{option_copied};
ghost use Rattle.std.specs.Ordering.{nat_cmp};
ghost use Rattle.sg_edge.specs.Ports.{AreSame, AreSameBut, IsMarkedWaiting, joined, row_behind, served, socket_at, turned, without};

use mio::net::UdpSocket;
use sg_base::NoMemory;
use std::alloc::Global;
use std::collections::{BTreeMap, VecDeque};

/// So many datagrams are taken from the port whose turn it is, before the next has its turn.
const ROW_MOST: u32 = 16;

/// The socket of a port, and whether the port stands among the waiting ones.
#[derive(Drop)]
struct Bound {
    socket: UdpSocket,
    is_waiting: bool,
}

/// The sockets of the ports that are bound, and those of the ports that may have a datagram, in turn. Counts the
/// datagrams that came since a port last went behind the others.
#[derive(Drop)]
pub(crate) struct Ports {
    bound: BTreeMap<u16, Bound>,
    waiting: VecDeque<u16>,
    row: u32,
    ghost short: { row < 16 },
    ghost room: { btree_map_len bound ≤ deque_capacity waiting },
    ghost marked: { (port : ℕ) → IsMarkedWaiting bound waiting.items port },
}

impl Ports {
    /// No ports.
    pub(crate) fn new(alloc: Global) -> Ports
        ensures bound { (port : ℕ) → socket_at result.bound port ≡ None }
        ensures waiting { result.waiting.items ≡ [] }
        ensures row { result.row ≡ 0 }
    {
        Ports {
            bound: BTreeMap::new(alloc),
            waiting: VecDeque::new(alloc),
            row: 0,
        }
    }

    /// The socket of a port, where that is bound.
    pub(crate) fn socket(&self, port: u16) -> Option<&UdpSocket>
        ensures { option_copied result ≡ socket_at self.now.bound port }
    {
        self.bound.get(&port).map(|bound| &bound.socket)
    }

    /// Adds a port that isn't bound. All memory that it needs is taken here.
    pub(crate) fn add(&mut self, port: u16, socket: UdpSocket) -> Result<(), NoMemory>
        requires { socket_at self.old.bound port ≡ None }
        ensures added { OnOk result (socket_at self.new.bound port ≡ Some socket) }
        ensures err { OnErr result (AreSame self.old.bound self.new.bound) }
        ensures others { AreSameBut port self.old.bound self.new.bound }
        ensures waiting { self.new.waiting.items ≡ self.old.waiting.items }
        ensures row { self.new.row ≡ self.old.row }
    {
        self.waiting.try_reserve(self.bound.len() + 1)?;
        let is_waiting = false;
        self.bound.insert(port, Bound { socket, is_waiting })?;
        Ok(())
    }

    /// Takes a port out, also where it isn't bound.
    pub(crate) fn remove(&mut self, port: u16)
        ensures gone { socket_at self.new.bound port ≡ None }
        ensures others { AreSameBut port self.old.bound self.new.bound }
        ensures waiting { self.new.waiting.items ≡ without port self.old.waiting.items }
        ensures row { self.new.row ≡ self.old.row }
    {
        if let Some(bound) = self.bound.remove(&port) {
            if bound.is_waiting {
                self.waiting.retain(|other| *other != port);
            }
        }
    }

    /// A port may have a datagram: it waits from now on, where it is bound. There is room for it since it was added.
    pub(crate) fn join(&mut self, port: u16)
        ensures bound { AreSame self.old.bound self.new.bound }
        ensures waiting { self.new.waiting.items ≡ joined port (get nat_cmp self.old.bound port) self.old.waiting.items }
        ensures row { self.new.row ≡ self.old.row }
    {
        if let Some(bound) = self.bound.get_mut(&port) {
            if !bound.is_waiting {
                self.waiting.push_back_reserved(port);
                bound.is_waiting = true;
            }
        }
    }

    /// How many ports wait.
    pub(crate) fn count(&self) -> usize
        ensures { result ≡ length self.now.waiting.items }
    {
        self.waiting.len()
    }

    /// The port whose turn it is, with its socket.
    pub(crate) fn first(&self) -> Option<(u16, &UdpSocket)>
        ensures none { IfNone result (self.now.waiting.items ≡ []) }
        ensures some { IfSome result (λ f. (rest : List ℕ) × (self.now.waiting.items ≡ f.0 ∷ rest) × (socket_at self.now.bound f.0 ≡ Some f.1.now)) }
    {
        let port = *self.waiting.front()?;
        Some((port, self.socket(port)?))
    }

    /// The port whose turn it was comes last.
    pub(crate) fn turn(&mut self)
        ensures bound { self.new.bound ≡ self.old.bound }
        ensures waiting { self.new.waiting.items ≡ turned self.old.waiting.items }
        ensures row { self.new.row ≡ 0 }
    {
        self.row = 0;
        if !self.waiting.is_empty() {
            self.waiting.rotate_left(1);
        }
    }

    /// The port whose turn it is gave a datagram: its turn goes on, up to the sixteenth since a port last came last.
    pub(crate) fn serve(&mut self)
        ensures bound { self.new.bound ≡ self.old.bound }
        ensures waiting { self.new.waiting.items ≡ served self.old.row self.old.waiting.items }
        ensures row { self.new.row ≡ row_behind self.old.row }
    {
        if self.row + 1 < ROW_MOST {
            self.row += 1;
        } else {
            self.turn();
        }
    }

    /// The port whose turn it was has no datagram: it waits no longer.
    pub(crate) fn leave(&mut self)
        ensures bound { AreSame self.old.bound self.new.bound }
        ensures waiting { self.new.waiting.items ≡ drop 1 self.old.waiting.items }
        ensures row { self.new.row ≡ self.old.row }
    {
        if let Some(port) = self.waiting.pop_front() {
            if let Some(bound) = self.bound.get_mut(&port) {
                bound.is_waiting = false;
            }
        }
    }
}
