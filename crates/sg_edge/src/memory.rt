//! A source and a sink in memory, which fail where they are told to.

ghost use Rattle.std.specs.Prelude.{◌-◌, ◌^◌, ◌≡◌, ◌⊎◌, ◌+◌, ◌<◌, ◌≤◌, ◌≢◌, ℕ, Bool, true, false, List, ◌++◌, Option, Some, None, length, take, drop, IfOk, IsErr, IsOk, OnErr, IsTrue, IsNone, IsSome, [], min};
ghost use Rattle.std.specs.Result.{is_err};
ghost use Rattle.std.specs.Option.{option_copied, option_map};
ghost use Rattle.sg_edge.specs.Told.{AtEnd, HasCause, Rose, RoseBy, Tells, TookIn, Wrote, taken};
ghost use Rattle.sg_edge.specs.Memory.{after_call, fails_next, left_after, left_in, no_calls, passed, taken_in};

use crate::{Sink, Source};
use sg_base::{Failed, Octets};
use std::alloc::Global;
use std::marker::Model;

/// The calls on an object in memory.
#[derive(Drop)]
pub(crate) struct CallBook {
    most: usize,
    count: u64,
    fails: Vec<u64>,
    faults: u64,
    failed: bool,
}

impl Model for CallBook {
    ghost use Rattle.std.specs.Prelude.{◌<◌};
    ghost use Rattle.sg_edge.specs.Memory.{Calls};

    ghost Value = { Calls };

    ghost view = { λ b. record { most = b.most; count = b.count; fails = b.fails.items; faults = b.faults; failed = b.failed } };

    ghost invariant = { λ b. 0 < b.most };
}

impl CallBook {
    pub(crate) fn new(most: usize, fails: Vec<u64>) -> CallBook
        requires { 0 < most }
        ensures { result ≡ no_calls most fails.items }
    {
        CallBook {
            most,
            count: 0,
            fails,
            faults: 0,
            failed: false,
        }
    }

    /// Whether the next call is to fail.
    pub(crate) fn fails(&self) -> bool
        ensures { result ≡ fails_next self.now }
    {
        let number = self.count.saturating_add(1);
        self.fails.contains(&number)
    }

    /// A call was made, which failed or not.
    pub(crate) fn note(&mut self, failed: bool)
        ensures value { self.new ≡ after_call failed self.old }
        ensures later { self.old.faults ≤ self.new.faults }
        ensures quiet { failed ≡ false → self.new.faults ≡ self.old.faults }
        ensures rose { IsTrue failed → Rose self.old.faults self.new.faults }
    {
        self.count = self.count.saturating_add(1);
        if failed {
            self.faults = self.faults.saturating_add(1);
        }
        self.failed = failed;
    }

    /// How many octets a call passes that doesn't fail.
    fn passes(&self, there: usize, room: usize) -> usize
        ensures value { result ≡ passed self.now there room }
        ensures some { 0 < there → 0 < room → 0 < result }
    {
        there.min(room).min(self.most)
    }
}

/// A source over octets in memory. A call fails exactly where its number, from 1, is in the list
/// that it was made with; it gives nothing then.
#[derive(Drop)]
pub struct MemSource {
    octets: Octets,
    at: usize,
    book: CallBook,
}

impl Model for MemSource {
    ghost use Rattle.std.specs.Prelude.{◌≤◌, length, drop};
    ghost use Rattle.sg_edge.specs.Memory.{SourceInMemory};

    ghost Value = { SourceInMemory };

    ghost view = { λ s. record { left = drop s.at s.octets; given = s.at; calls = s.book } };

    ghost invariant = { λ s. s.at ≤ length s.octets };
}

impl MemSource {
    /// A source of these octets; the calls with these numbers fail.
    pub fn make(octets: Octets, fails: Vec<u64>) -> MemSource
        ensures left { result.left ≡ octets }
        ensures given { result.given ≡ 0 }
        ensures calls { result.calls ≡ no_calls usize.MAX fails.items }
    {
        MemSource::limited(octets, usize::MAX, fails)
    }

    /// A source of these octets, of which one call gives at most so many.
    pub fn limited(octets: Octets, most: usize, fails: Vec<u64>) -> MemSource
        requires { 0 < most }
        ensures left { result.left ≡ octets }
        ensures given { result.given ≡ 0 }
        ensures calls { result.calls ≡ no_calls most fails.items }
    {
        MemSource {
            octets,
            at: 0,
            book: CallBook::new(most, fails),
        }
    }
}

/// Copies so many octets from that place on to the start of the part.
pub(crate) fn copy_prefix(octets: &[u8], at: usize, count: usize, part: &mut [u8])
    requires there { at + count ≤ length octets.now }
    requires room { count ≤ length part.old }
    ensures { part.new ≡ take count (drop at octets.now) ++ drop count part.old }
{
    part[..count].copy_from_slice(&octets[at..at + count]);
}

impl Source for MemSource {
    ghost left = { λ s. left_in s };

    ghost faults = { λ s. s.calls.faults };

    ghost failed = { λ s. Some s.calls.failed };

    fn read(&mut self, part: &mut [u8]) -> Result<usize, Failed>
        ensures within { IfOk result (λ n. n ≤ length part.old) }
        ensures ended { IfOk result (λ n. 0 < length part.old → n ≡ 0 → AtEnd (left_in self.new)) }
        ensures took { TookIn (left_in self.old) (left_in self.new) (taken result part.new) }
        ensures cause { HasCause self.old.calls.faults self.new.calls.faults result }
        ensures told { Tells (Some self.new.calls.failed) (is_err result) }
        ensures fails { is_err result ≡ fails_next self.old.calls }
        ensures gives { IfOk result (λ n. n ≡ passed self.old.calls (length self.old.left) (length part.old)) }
        ensures calls { self.new.calls ≡ after_call (is_err result) self.old.calls }
        ensures left { self.new.left ≡ left_after result self.old.left }
    {
        let fails = self.book.fails();
        self.book.note(fails);
        if fails {
            return Err(Failed);
        }
        let octets = self.octets.as_slice();
        let count = self.book.passes(octets.len() - self.at, part.len());
        copy_prefix(octets, self.at, count, part);
        self.at += count;
        Ok(count)
    }
}

/// A sink in memory, which keeps a record of what it takes. A call fails exactly where its number,
/// from 1, is in the list that it was made with, or where no memory is found for the record: then the
/// sink tells no record from then on.
#[derive(Drop)]
pub struct MemSink {
    octets: Vec<u8>,
    tells: bool,
    count: u64,
    book: CallBook,
}

impl Model for MemSink {
    ghost use Rattle.std.specs.Prelude.{Some, None, if◌then◌else◌};
    ghost use Rattle.sg_edge.specs.Memory.{SinkInMemory};

    ghost Value = { SinkInMemory };

    ghost view = { λ s. record { written = if s.tells then Some s.octets.items else None; count = s.count; calls = s.book } };
}

impl MemSink {
    /// A sink that has taken nothing; the calls with these numbers fail.
    pub fn make(alloc: Global, fails: Vec<u64>) -> MemSink
        ensures written { result.written ≡ Some [] }
        ensures count { result.count ≡ 0 }
        ensures calls { result.calls ≡ no_calls usize.MAX fails.items }
    {
        MemSink::limited(alloc, usize::MAX, fails)
    }

    /// A sink that has taken nothing, of which one call takes at most so many octets.
    pub fn limited(alloc: Global, most: usize, fails: Vec<u64>) -> MemSink
        requires { 0 < most }
        ensures written { result.written ≡ Some [] }
        ensures count { result.count ≡ 0 }
        ensures calls { result.calls ≡ no_calls most fails.items }
    {
        MemSink {
            octets: Vec::new(alloc),
            tells: true,
            count: 0,
            book: CallBook::new(most, fails),
        }
    }

    /// The octets that it has taken, where it tells them.
    pub fn written(&self) -> Option<&[u8]>
        ensures { option_copied result ≡ self.now.written }
    {
        if self.tells {
            Some(self.octets.as_slice())
        } else {
            None
        }
    }

    /// Adds octets to the record, and counts them; answers false where no memory is found for them.
    fn keep(&mut self, octets: &[u8]) -> bool
        ensures kept { IsTrue result → self.new.written ≡ option_map (λ l. l ++ octets.now) self.old.written }
        ensures lost { result ≡ false → (self.new.written ≡ None) × IsSome self.old.written }
        ensures counted { IsTrue result → RoseBy (2 ^ 64 - 1) self.old.count self.new.count (length octets.now) }
        ensures uncounted { result ≡ false → self.new.count ≡ self.old.count }
        ensures calls { self.new.calls ≡ self.old.calls }
    {
        if self.tells && self.octets.extend_from_slice(octets).is_err() {
            self.tells = false;
            return false;
        }
        self.count = self.count.saturating_add(octets.len() as u64);
        true
    }
}

impl Sink for MemSink {
    ghost written = { λ s. taken_in s };

    ghost faults = { λ s. s.calls.faults };

    ghost failed = { λ s. Some s.calls.failed };

    fn write(&mut self, part: &[u8]) -> Result<usize, Failed>
        ensures within { IfOk result (λ n. n ≤ length part.now) }
        ensures some { IfOk result (λ n. 0 < length part.now → 0 < n) }
        ensures wrote { Wrote (taken_in self.old) (taken_in self.new) (taken result part.now) }
        ensures cause { HasCause self.old.calls.faults self.new.calls.faults result }
        ensures told { Tells (Some self.new.calls.failed) (is_err result) }
        ensures fails { IsTrue (fails_next self.old.calls) → IsErr result × (self.new.written ≡ self.old.written) }
        ensures only { IsErr result → IsTrue (fails_next self.old.calls) ⊎ (IsSome self.old.written × IsNone self.new.written) }
        ensures takes { IfOk result (λ n. n ≡ passed self.old.calls (length part.now) (length part.now)) }
        ensures calls { self.new.calls ≡ after_call (is_err result) self.old.calls }
        ensures kept { IfOk result (λ n. self.new.written ≡ option_map (λ l. l ++ take n part.now) self.old.written) }
    {
        if self.book.fails() {
            self.book.note(true);
            return Err(Failed);
        }
        let count = self.book.passes(part.len(), part.len());
        let kept = self.keep(&part[..count]);
        self.book.note(!kept);
        if !kept {
            return Err(Failed);
        }
        Ok(count)
    }

    /// It holds nothing, and this is no call that can fail.
    fn flush(&mut self) -> Result<(), Failed>
        ensures kept { taken_in self.new ≡ taken_in self.old }
        ensures cause { HasCause self.old.calls.faults self.new.calls.faults result }
        ensures told { OnErr result (Tells (Some self.new.calls.failed) true) }
        ensures same { IsOk result × (self.new ≡ self.old) }
    {
        Ok(())
    }
}
