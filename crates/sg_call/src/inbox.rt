//! The inbox of a call: the datagrams that wait, and those that are handled.

ghost use Rattle.std.specs.Prelude.{◌≡◌, ◌<◌, ◌+◌, ◌++◌, [], ◌∷◌, length, drop, IfOk, IfSome, MatchOption};
ghost use Rattle.sg_call.specs.Values.{QueuedValue};

use crate::handled::Handled;
use sg_base::{Address, BATCH_MOST, NoMemory, Pad};
use std::alloc::Global;
use std::collections::VecDeque;
use std::marker::Model;

/// A datagram that waits, under the number that its caller gave it, with its moment.
#[derive(Drop)]
pub struct Queued {
    pub number: u32,
    pub port: u16,
    pub from: Address,
    pub pad: Pad,
    pub now: u64,
}

impl Model for Queued {
    ghost use Rattle.sg_call.specs.Values.{QueuedValue};

    ghost Value = { QueuedValue };

    ghost view = { λ q. record {
      number = q.number;
      port = q.port;
      from = q.from;
      octets = q.pad;
      now = q.now;
    } };
}

/// The datagrams of a call that wait and those that are handled, each in order, 256 together at most. The first of
/// either stands beside its queue, so that a call to which one comes at a time leaves the memory of its queues alone.
/// Only `make` allocates, and no function hands the allocator of the queues on.
#[derive(Drop)]
pub struct Inbox {
    next: Option<Queued>,
    done: Option<(u32, Handled)>,
    waiting: VecDeque<Queued>,
    handled: VecDeque<(u32, Handled)>,
}

impl Model for Inbox {
    ghost use Rattle.std.specs.Prelude.{◌≤◌, ◌+◌, ◌++◌, length, option_to_list};
    ghost use Rattle.std.specs.VecDeque.{deque_capacity, deque_items, deque_len};
    ghost use Rattle.sg_call.specs.Values.{InboxValue};

    ghost Value = { InboxValue };

    ghost view = { λ i. record {
      waiting = option_to_list i.next ++ deque_items i.waiting;
      handled = option_to_list i.done ++ deque_items i.handled;
    } };

    ghost invariant = { λ i. (256 ≤ deque_capacity i.waiting) × (256 ≤ deque_capacity i.handled)
        × (length (option_to_list i.next) + deque_len i.waiting + (length (option_to_list i.done) + deque_len i.handled) ≤ 256) };
}

impl Inbox {
    /// An empty inbox, with room for 256 datagrams that wait or are handled.
    pub(crate) fn make(alloc: Global) -> Result<Inbox, NoMemory>
        ensures { IfOk result (λ inbox. (inbox.waiting ≡ []) × (inbox.handled ≡ [])) }
    {
        Ok(Inbox {
            next: None,
            done: None,
            waiting: VecDeque::with_capacity(alloc, BATCH_MOST)?,
            handled: VecDeque::with_capacity(alloc, BATCH_MOST)?,
        })
    }

    /// A datagram waits, behind those that do.
    pub(crate) fn add(&mut self, queued: Queued)
        requires room { length self.old.waiting + length self.old.handled < 256 }
        ensures { self.new ≡ record self.old { waiting = self.old.waiting ++ queued ∷ [] } }
    {
        if self.next.is_none() && self.waiting.is_empty() {
            self.next = Some(queued);
        } else {
            self.waiting.push_back_reserved(queued);
        }
    }

    /// Takes out the first datagram that waits; none where none does.
    pub(crate) fn next(&mut self) -> Option<Queued>
        ensures first { MatchOption result (self.old.waiting ≡ []) (λ q. self.old.waiting ≡ q ∷ self.new.waiting) }
        ensures rest { self.new ≡ record self.old { waiting = drop 1 self.old.waiting } }
        ensures room { IfSome result (λ _. length self.new.waiting + length self.new.handled < 256) }
    {
        match self.next.take() {
            Some(queued) => Some(queued),
            None => self.waiting.pop_front(),
        }
    }

    /// A datagram is handled, behind those that are.
    pub(crate) fn keep(&mut self, number: u32, handled: Handled)
        requires room { length self.old.waiting + length self.old.handled < 256 }
        ensures { self.new ≡ record self.old { handled = self.old.handled ++ (number, handled) ∷ [] } }
    {
        if self.done.is_none() && self.handled.is_empty() {
            self.done = Some((number, handled));
        } else {
            self.handled.push_back_reserved((number, handled));
        }
    }

    /// Takes out the first datagram that is handled; none where none is.
    pub(crate) fn take(&mut self) -> Option<(u32, Handled)>
        ensures first { MatchOption result (self.old.handled ≡ []) (λ h. self.old.handled ≡ h ∷ self.new.handled) }
        ensures rest { self.new ≡ record self.old { handled = drop 1 self.old.handled } }
    {
        match self.done.take() {
            Some(first) => Some(first),
            None => self.handled.pop_front(),
        }
    }
}
