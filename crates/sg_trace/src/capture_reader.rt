//! Captures behind a script, read record by record.

ghost use Rattle.std.specs.Prelude.{◌≡◌, ◌↔◌, ◌⊎◌, ◌<◌, ◌≤◌, ◌+◌, ◌-◌, ◌^◌, ℕ, true, List, [], length, drop, IfErr, Err};
ghost use Rattle.sg_pcap.specs.Records.{record_length};
ghost use Rattle.sg_trace.specs.CaptureReading.{HasRecord, IsHeaderRead, IsRecordRead};
ghost use Rattle.sg_trace.specs.Causes.{IsCaused};
ghost use Rattle.sg_edge.specs.Told.{TookIn};

use crate::part_reader::next_part;
use crate::read_buffer::ReadBuffer;
use crate::script_reader::ScriptReader;
use crate::status::Status;
use sg_base::SCRIPT_MOST;
use sg_edge::Source;
use sg_pcap::{Form, Record, header_within, record_length, record_within};
use std::alloc::Global;
use std::marker::Model;

/// The octets of a header.
const HEADER: usize = 24;

/// The octets of a record's head.
const HEAD: usize = 16;

/// Reads a capture part by part: its header, and then its records. It is seen as what waits to be read, the part that
/// was read last, the offset behind it, how many octets of the capture count, and how many it may still ask for.
#[derive(Drop)]
pub struct CaptureReader {
    read_buffer: ReadBuffer,
    /// The header or the record that was read last, at this offset.
    part: Vec<u8>,
    at: u64,
    most: u64,
    budget: u64,
}

impl Model for CaptureReader {
    ghost use Rattle.std.specs.Prelude.{◌+◌, ◌≡◌, ◌≤◌, ◌^◌, length};
    ghost use Rattle.sg_trace.specs.CaptureReading.{Capturing};

    ghost Value = { Capturing };

    ghost view = { λ r. record { waits = r.read_buffer; part = r.part.items; at = r.at + length r.part.items; most = r.most; budget = r.budget } };

    ghost invariant = { λ r. (r.at + length r.part.items + length r.read_buffer + r.budget ≡ r.most + 1) × (r.most ≤ 2 ^ 30) };
}

impl CaptureReader {
    /// At the first octet behind the lines that were read, which have at most 2^30. Of the source the first 2^30 octets
    /// count.
    pub fn new(alloc: Global, script: ScriptReader) -> CaptureReader
        requires { script.offset ≤ 2 ^ 30 }
        ensures { result ≡ record { waits = script.waits; part = []; at = 0; most = 2 ^ 30 - script.offset; budget = script.budget } }
    {
        let (read_buffer, offset, budget) = script.into_rest();
        CaptureReader {
            read_buffer,
            part: Vec::new(alloc),
            at: 0,
            most: SCRIPT_MOST - offset,
            budget,
        }
    }

    /// Whether a whole record waits, by its head, so that none is waited for.
    pub fn holds_record(&self, form: Form) -> bool
        ensures { (result ≡ true) ↔ ((16 ≤ length self.now.waits) × (record_length form self.now.waits ≤ length self.now.waits)) }
    {
        let waiting = self.read_buffer.waiting();
        waiting.len() >= HEAD && waiting.len() >= record_length(form, waiting)
    }

    /// Reads the header, where nothing was read yet. `Capture` with the header's first fault; `Read` where the source
    /// fails; `NoMemory` where memory runs out.
    pub fn header<S: Source>(&mut self, source: &mut S) -> Result<Form, Status>
        requires { self.old.at ≡ 0 }
        ensures header { (got : List ℕ) × TookIn (S.left source.old) (S.left source.new) got
            × IsHeaderRead result self.old self.new got (S.left source.new) × (length got + self.new.budget ≡ self.old.budget) }
        ensures most { self.new.most ≡ self.old.most }
        ensures near { length self.old.waits ≤ 4096 → (length self.new.waits ≤ 4096) × (length self.old.waits + self.old.budget ≤ self.new.budget + 266256) }
        ensures given { (S.left source.new).count + self.new.budget ≤ (S.left source.old).count + self.old.budget }
        ensures cause { IsCaused Status.Read result (S.faults source.old) (S.faults source.new) (S.failed source.new) }
    {
        match next_part(
            &mut self.read_buffer,
            source,
            &mut self.part,
            HEADER,
            &mut self.budget,
        ) {
            Err(status) => return Err(status),
            Ok(()) => {}
        }
        match header_within(self.most, &self.part) {
            Err((offset, fault)) => Err(Status::Capture { offset, fault }),
            Ok(form) => Ok(form),
        }
    }

    /// Reads the next record, whose captured octets `frame` gives; none at the end of the source, or where more were read
    /// than the octets that count. `Capture` with the record's first fault; `Read` where the source fails; `NoMemory`
    /// where memory runs out.
    pub fn next<S: Source>(&mut self, source: &mut S, form: Form) -> Result<Option<Record>, Status>
        ensures next { (got : List ℕ) × TookIn (S.left source.old) (S.left source.new) got
            × IsRecordRead form result self.old self.new got (S.left source.new) × (length got + self.new.budget ≡ self.old.budget) }
        ensures most { self.new.most ≡ self.old.most }
        ensures near { length self.old.waits ≤ 4096 → (length self.new.waits ≤ 4096) × (length self.old.waits + self.old.budget ≤ self.new.budget + 266256) }
        ensures given { (S.left source.new).count + self.new.budget ≤ (S.left source.old).count + self.old.budget }
        ensures cause { IsCaused Status.Read result (S.faults source.old) (S.faults source.new) (S.failed source.new) }
    {
        self.at += self.part.len() as u64;
        self.part.clear();
        match next_record(
            form,
            &mut self.read_buffer,
            source,
            &mut self.part,
            &mut self.budget,
        ) {
            Err(status) => return Err(status),
            Ok(()) => {}
        }
        if self.part.as_slice().is_empty() {
            return Ok(None);
        }
        match record_within(self.most, form, self.at, &self.part) {
            Err((offset, fault)) => Err(Status::Capture { offset, fault }),
            Ok(record) => Ok(Some(record)),
        }
    }

    /// The captured octets of the record that was read last.
    pub fn frame(&self) -> &[u8]
        requires { 16 ≤ length self.now.part }
        ensures { result.now ≡ drop 16 self.now.part }
    {
        &self.part[HEAD..]
    }
}

/// Reads into the empty `part` as many octets as the next record has, by its head; or all that are left. Where the source
/// fails, all that came is in `part`, and those are fewer.
fn next_record<S: Source>(
    form: Form,
    read_buffer: &mut ReadBuffer,
    source: &mut S,
    part: &mut Vec<u8>,
    budget: &mut u64,
) -> Result<(), Status>
    requires { part.old.items ≡ [] }
    ensures got { (got : List ℕ) × TookIn (S.left source.old) (S.left source.new) got
        × HasRecord form result part.new.items read_buffer.old read_buffer.new got (S.left source.new) budget.new × (length got + budget.new ≡ budget.old) }
    ensures given { (S.left source.new).count + budget.new ≤ (S.left source.old).count + budget.old }
    ensures only { IfErr result (λ status. (status ≡ Status.Read) ⊎ (status ≡ Status.NoMemory)) }
    ensures near { length read_buffer.old ≤ 4096 → (length read_buffer.new ≤ 4096) × (length part.new.items ≤ 262160) }
    ensures short { result ≡ Err Status.Read → (length part.new.items < record_length form part.new.items) × (read_buffer.new ≡ []) }
    ensures cause { IsCaused Status.Read result (S.faults source.old) (S.faults source.new) (S.failed source.new) }
{
    match next_part(read_buffer, source, part, HEAD, budget) {
        Err(status) => return Err(status),
        Ok(()) => {}
    }
    if part.len() < HEAD {
        return Ok(());
    }
    let length = record_length(form, part);
    next_part(read_buffer, source, part, length, budget)
}
