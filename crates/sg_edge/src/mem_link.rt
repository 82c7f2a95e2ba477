//! Links in memory: one that fails where it is told to, and one that never fails.

ghost use Rattle.std.specs.Prelude.{◌≡◌, ◌⊎◌, ◌≤◌, ℕ, Bool, true, false, not, ◌||◌, List, [], ◌∷◌, ◌++◌, Option, Some, None, drop, take, OnOk, IfOk, IsOk, IsSome, IsTrue, Ok};
ghost use Rattle.std.specs.Result.{is_err, is_ok};
ghost use Rattle.std.specs.Option.{option_map};
ghost use Rattle.sg_edge.specs.LinksInMemory.{FailsAsAsked, call_of, calls_in, history, next_of};
ghost use Rattle.sg_edge.specs.Links.{Bind, Called, Came, LinkCall, Receive, Send, Unbind, none_called, received};
ghost use Rattle.sg_edge.specs.Memory.{after_call, fails_next, no_calls};
ghost use Rattle.sg_edge.specs.Told.{HasCause};

use crate::link::{CallCounts, Link, Receipt, raise};
use crate::memory::CallBook;
use sg_base::{Address, Failed, Octets, PAD_MOST, Pad};
use std::alloc::Global;
use std::marker::Model;

/// One call of a link, as it is kept.
#[derive(Drop)]
pub enum LinkRecord {
    Bound {
        port: u16,
        ok: bool,
    },
    Unbound {
        port: u16,
        ok: bool,
    },
    Got {
        port: u16,
        from: Address,
        octets: Octets,
    },
    Nothing,
    Failing,
    Sent {
        port: u16,
        to: Address,
        octets: Octets,
        ok: bool,
    },
}

/// The datagrams that are to come, and the record of the calls.
#[derive(Drop)]
struct LinkBook {
    alloc: Global,
    receipts: Vec<Option<(u16, Address, Octets)>>,
    at: usize,
    kept: Vec<LinkRecord>,
    tells: bool,
}

impl Model for LinkBook {
    ghost use Rattle.std.specs.Prelude.{Some, None, if◌then◌else◌, drop};
    ghost use Rattle.sg_edge.specs.LinksInMemory.{LinkInMemory, history};

    ghost Value = { LinkInMemory };

    ghost view = { λ b. record { left = drop b.at b.receipts.items; told = if b.tells then Some (history b.kept.items) else None } };
}

impl LinkBook {
    fn new(alloc: Global, receipts: Vec<Option<(u16, Address, Octets)>>) -> LinkBook
        ensures left { result.left ≡ receipts.items }
        ensures told { result.told ≡ Some [] }
    {
        LinkBook {
            alloc,
            receipts,
            at: 0,
            kept: Vec::new(alloc),
            tells: true,
        }
    }

    /// Adds a call to the record; answers false where no memory is found for it.
    fn keep(&mut self, call: LinkRecord) -> bool
        ensures kept { result ≡ true → self.new.told ≡ option_map (λ l. l ++ call_of call ∷ []) self.old.told }
        ensures lost { result ≡ false → (self.new.told ≡ None) × IsSome self.old.told }
        ensures left { self.new.left ≡ self.old.left }
    {
        if self.tells && self.kept.push(call).is_err() {
            self.tells = false;
            return false;
        }
        true
    }

    /// Adds a receive that gave a datagram.
    fn keep_got(&mut self, port: u16, from: Address, octets: &[u8]) -> bool
        ensures kept { result ≡ true → self.new.told ≡ option_map (λ l. l ++ Receive (Came port from octets.now) ∷ []) self.old.told }
        ensures lost { result ≡ false → (self.new.told ≡ None) × IsSome self.old.told }
        ensures left { self.new.left ≡ self.old.left }
    {
        if !self.tells {
            return true;
        }
        match Octets::copy_of(self.alloc, octets) {
            Err(_) => {
                self.tells = false;
                false
            }
            Ok(octets) => self.keep(LinkRecord::Got { port, from, octets }),
        }
    }

    /// Adds a receive that gave this, with these octets in the pad.
    fn keep_receipt(&mut self, receipt: Receipt, octets: &[u8]) -> bool
        ensures kept { result ≡ true → self.new.told ≡ option_map (λ l. l ++ Receive (received (Ok receipt) octets.now) ∷ []) self.old.told }
        ensures lost { result ≡ false → (self.new.told ≡ None) × IsSome self.old.told }
        ensures left { self.new.left ≡ self.old.left }
    {
        match receipt {
            Receipt::Got { port, from } => self.keep_got(port, from, octets),
            Receipt::Nothing => self.keep(LinkRecord::Nothing),
        }
    }

    /// Adds a send.
    fn keep_sent(&mut self, port: u16, to: Address, octets: &[u8], ok: bool) -> bool
        ensures kept { result ≡ true → self.new.told ≡ option_map (λ l. l ++ Send port to octets.now ok ∷ []) self.old.told }
        ensures lost { result ≡ false → (self.new.told ≡ None) × IsSome self.old.told }
        ensures left { self.new.left ≡ self.old.left }
    {
        if !self.tells {
            return true;
        }
        match Octets::copy_of(self.alloc, octets) {
            Err(_) => {
                self.tells = false;
                false
            }
            Ok(octets) => self.keep(LinkRecord::Sent {
                port,
                to,
                octets,
                ok,
            }),
        }
    }

    /// The next datagram that is to come, in the pad.
    fn next(&mut self, pad: &mut Pad) -> Receipt
        ensures came { received (Ok result) pad.new ≡ next_of self.old.left }
        ensures left { self.new.left ≡ drop 1 self.old.left }
        ensures told { self.new.told ≡ self.old.told }
    {
        let receipt = match self.receipts.get(self.at) {
            Some(Some((port, from, octets))) => {
                fill_prefix(pad, octets.as_slice());
                Receipt::Got {
                    port: *port,
                    from: *from,
                }
            }
            _ => Receipt::Nothing,
        };
        self.at = self.at.saturating_add(1);
        receipt
    }
}

/// The pad's octets become these, of more than 4,352 the first so many.
fn fill_prefix(pad: &mut Pad, octets: &[u8])
    ensures { pad.new ≡ take 4352 octets.now }
{
    let count = octets.len().min(PAD_MOST);
    pad.cut_to(0);
    pad.append(&octets[..count]);
}

/// A link over datagrams in memory, which keeps a record of its calls. A call fails where its number, from
/// 1, is in the list that it was made with, and else only where no memory is found for the record: then the
/// link tells no record from then on. A receive gives the next that is to come, of a longer datagram the
/// first 4,352 octets, and nothing behind the last. One that fails by the list leaves what is to come, and
/// the pad, as they are; what one leaves that fails for want of memory isn't said.
#[derive(Drop)]
pub struct MemLink {
    link: LinkBook,
    counts: CallCounts,
    book: CallBook,
    faults: u64,
}

impl Model for MemLink {
    ghost use Rattle.sg_edge.specs.LinksInMemory.{FailingLink};

    ghost Value = { FailingLink };

    ghost view = { λ l. record { link = l.link; counts = l.counts; calls = l.book; faults = l.faults } };
}

impl MemLink {
    /// A link to which these datagrams are to come, None where nothing comes; the calls with these numbers
    /// fail.
    pub fn make(
        alloc: Global,
        receipts: Vec<Option<(u16, Address, Octets)>>,
        fails: Vec<u64>,
    ) -> MemLink
        ensures left { result.link.left ≡ receipts.items }
        ensures told { result.link.told ≡ Some [] }
        ensures counts { result.counts ≡ none_called }
        ensures calls { result.calls ≡ no_calls usize.MAX fails.items }
    {
        MemLink {
            link: LinkBook::new(alloc, receipts),
            counts: CallCounts::new(),
            book: CallBook::new(usize::MAX, fails),
            faults: 0,
        }
    }

    /// The calls so far, where they are told.
    pub fn calls(&self) -> Option<&[LinkRecord]>
        ensures { option_map (λ kept. history kept.now) result ≡ self.now.link.told }
    {
        if self.link.tells {
            Some(self.link.kept.as_slice())
        } else {
            None
        }
    }

    /// A receive was made, and kept or not.
    fn gave(&mut self, fails: bool, kept: bool, receipt: Receipt) -> Result<Receipt, Failed>
        ensures answer { is_err result ≡ (fails || not kept) }
        ensures ok { IfOk result (λ r. r ≡ receipt) }
        ensures link { self.new.link ≡ self.old.link }
        ensures counts { self.new.counts ≡ self.old.counts }
        ensures calls { self.new.calls ≡ after_call (is_err result) self.old.calls }
        ensures cause { HasCause self.old.faults self.new.faults result }
    {
        match self.note(fails, kept) {
            Err(Failed) => Err(Failed),
            Ok(()) => Ok(receipt),
        }
    }

    /// A call was made, and kept or not.
    fn note(&mut self, fails: bool, kept: bool) -> Result<(), Failed>
        ensures answer { is_err result ≡ (fails || not kept) }
        ensures link { self.new.link ≡ self.old.link }
        ensures counts { self.new.counts ≡ self.old.counts }
        ensures calls { self.new.calls ≡ after_call (is_err result) self.old.calls }
        ensures cause { HasCause self.old.faults self.new.faults result }
    {
        let failed = fails || !kept;
        self.book.note(failed);
        if failed {
            self.faults = self.faults.saturating_add(1);
            return Err(Failed);
        }
        Ok(())
    }
}

impl Link for MemLink {
    ghost told = { λ l. calls_in l.link l.counts };

    ghost faults = { λ l. l.faults };

    fn bind(&mut self, port: u16) -> Result<(), Failed>
        ensures told { Called (calls_in self.old.link self.old.counts) (calls_in self.new.link self.new.counts) (Bind port (is_ok result) ∷ []) }
        ensures cause { HasCause self.old.faults self.new.faults result }
        ensures fails { FailsAsAsked self.old self.new result }
        ensures left { self.new.link.left ≡ self.old.link.left }
    {
        raise(&mut self.counts.binds);
        let fails = self.book.fails();
        let kept = self.link.keep(LinkRecord::Bound { port, ok: !fails });
        self.note(fails, kept)
    }

    fn unbind(&mut self, port: u16) -> Result<(), Failed>
        ensures told { Called (calls_in self.old.link self.old.counts) (calls_in self.new.link self.new.counts) (Unbind port (is_ok result) ∷ []) }
        ensures cause { HasCause self.old.faults self.new.faults result }
        ensures fails { FailsAsAsked self.old self.new result }
        ensures left { self.new.link.left ≡ self.old.link.left }
    {
        raise(&mut self.counts.unbinds);
        let fails = self.book.fails();
        let kept = self.link.keep(LinkRecord::Unbound { port, ok: !fails });
        self.note(fails, kept)
    }

    fn receive(&mut self, pad: &mut Pad) -> Result<Receipt, Failed>
        ensures told { Called (calls_in self.old.link self.old.counts) (calls_in self.new.link self.new.counts) (Receive (received result pad.new) ∷ []) }
        ensures cause { HasCause self.old.faults self.new.faults result }
        ensures fails { FailsAsAsked self.old self.new result }
        ensures gives { OnOk result (received result pad.new ≡ next_of self.old.link.left) }
        ensures left { OnOk result (self.new.link.left ≡ drop 1 self.old.link.left) }
        ensures stays { IsTrue (fails_next self.old.calls) → (self.new.link.left ≡ self.old.link.left) × (pad.new ≡ pad.old) }
    {
        raise(&mut self.counts.receives);
        if self.book.fails() {
            let kept = self.link.keep(LinkRecord::Failing);
            return self.gave(true, kept, Receipt::Nothing);
        }
        let receipt = self.link.next(pad);
        let kept = self.link.keep_receipt(receipt, pad.octets());
        self.gave(false, kept, receipt)
    }

    fn send(&mut self, port: u16, to: Address, part: &[u8]) -> Result<(), Failed>
        ensures told { Called (calls_in self.old.link self.old.counts) (calls_in self.new.link self.new.counts) (Send port to part.now (is_ok result) ∷ []) }
        ensures same { self.new.faults ≡ self.old.faults }
        ensures fails { FailsAsAsked self.old self.new result }
        ensures left { self.new.link.left ≡ self.old.link.left }
    {
        raise(&mut self.counts.sends);
        let fails = self.book.fails();
        let kept = self.link.keep_sent(port, to, part, !fails);
        let failed = fails || !kept;
        self.book.note(failed);
        if failed {
            raise(&mut self.counts.unsent);
            return Err(Failed);
        }
        Ok(())
    }
}

/// A link over datagrams in memory that never fails. A receive gives the next that is to come, of a longer
/// datagram the first 4,352 octets, and nothing behind the last. Where it finds no memory for its record,
/// it tells none from then on, and goes on.
#[derive(Drop)]
pub struct SureLink {
    link: LinkBook,
    counts: CallCounts,
}

impl Model for SureLink {
    ghost use Rattle.sg_edge.specs.LinksInMemory.{CountingLink};

    ghost Value = { CountingLink };

    ghost view = { λ l. record { link = l.link; counts = l.counts } };
}

impl SureLink {
    /// A link to which these datagrams are to come, None where nothing comes.
    pub fn make(alloc: Global, receipts: Vec<Option<(u16, Address, Octets)>>) -> SureLink
        ensures left { result.link.left ≡ receipts.items }
        ensures told { result.link.told ≡ Some [] }
        ensures counts { result.counts ≡ none_called }
    {
        SureLink {
            link: LinkBook::new(alloc, receipts),
            counts: CallCounts::new(),
        }
    }
}

impl Link for SureLink {
    ghost told = { λ l. calls_in l.link l.counts };

    ghost faults = { λ _. 0 };

    fn bind(&mut self, port: u16) -> Result<(), Failed>
        ensures told { Called (calls_in self.old.link self.old.counts) (calls_in self.new.link self.new.counts) (Bind port (is_ok result) ∷ []) }
        ensures cause { HasCause 0 0 result }
        ensures sure { IsOk result }
        ensures left { self.new.link.left ≡ self.old.link.left }
    {
        raise(&mut self.counts.binds);
        let _kept = self.link.keep(LinkRecord::Bound { port, ok: true });
        Ok(())
    }

    fn unbind(&mut self, port: u16) -> Result<(), Failed>
        ensures told { Called (calls_in self.old.link self.old.counts) (calls_in self.new.link self.new.counts) (Unbind port (is_ok result) ∷ []) }
        ensures cause { HasCause 0 0 result }
        ensures sure { IsOk result }
        ensures left { self.new.link.left ≡ self.old.link.left }
    {
        raise(&mut self.counts.unbinds);
        let _kept = self.link.keep(LinkRecord::Unbound { port, ok: true });
        Ok(())
    }

    fn receive(&mut self, pad: &mut Pad) -> Result<Receipt, Failed>
        ensures told { Called (calls_in self.old.link self.old.counts) (calls_in self.new.link self.new.counts) (Receive (received result pad.new) ∷ []) }
        ensures cause { HasCause 0 0 result }
        ensures sure { IsOk result }
        ensures gives { received result pad.new ≡ next_of self.old.link.left }
        ensures left { self.new.link.left ≡ drop 1 self.old.link.left }
    {
        raise(&mut self.counts.receives);
        let receipt = self.link.next(pad);
        let _kept = self.link.keep_receipt(receipt, pad.octets());
        Ok(receipt)
    }

    fn send(&mut self, port: u16, to: Address, part: &[u8]) -> Result<(), Failed>
        ensures told { Called (calls_in self.old.link self.old.counts) (calls_in self.new.link self.new.counts) (Send port to part.now (is_ok result) ∷ []) }
        ensures same { ◌≡◌ {A = ℕ} 0 0 }
        ensures sure { IsOk result }
        ensures left { self.new.link.left ≡ self.old.link.left }
    {
        raise(&mut self.counts.sends);
        let _kept = self.link.keep_sent(port, to, part, true);
        Ok(())
    }
}
