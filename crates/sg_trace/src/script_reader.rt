//! Scripts, read line by line.

ghost use Rattle.std.specs.Prelude.{◌≡◌, ◌↔◌, ◌⊎◌, ◌≤◌, ◌+◌, ◌^◌, ℕ, true, false, List, [], length, IfOk, IfSome};
ghost use Rattle.sg_trace.specs.Causes.{IsCaused};
ghost use Rattle.sg_trace.specs.Fed.{HoldsLine};
ghost use Rattle.sg_trace.specs.Trace.{spelled_at};
ghost use Rattle.sg_trace.specs.Reading.{IsNextBy, refused_as};
ghost use Rattle.sg_edge.specs.Told.{TookIn};
ghost use Rattle.sg_lines.specs.Fields.{Gives};
ghost use Rattle.sg_lines.specs.ScriptLines.{NoEnd};

use crate::line_reader::next_line;
use crate::read_buffer::ReadBuffer;
use crate::script_line::ScriptLine;
use crate::status::Status;
use sg_base::{SCRIPT_MOST, ScriptFault};
use sg_edge::Source;
use sg_lines::ReadLineFault;
use std::alloc::Global;
use std::marker::Model;

/// Reads a script line by line. It is seen as what waits to be read, the script's version, which its first line
/// says, the number of the next line, from 1, its offset in the script, and how many octets it may still ask for:
/// of a script the first 2^30 count, and one more shows that there are more.
#[derive(Drop)]
pub struct ScriptReader {
    read_buffer: ReadBuffer,
    /// The line that was read last, at this offset.
    line: Vec<u8>,
    at: u64,
    version: u8,
    /// How many lines were read.
    count: u64,
    budget: u64,
}

impl Model for ScriptReader {
    ghost use Rattle.std.specs.Prelude.{◌+◌, ◌≡◌, ◌⊎◌, ◌≤◌, ◌^◌, length};
    ghost use Rattle.sg_trace.specs.Reading.{Reading};

    ghost Value = { Reading };

    ghost view = { λ r. record { waits = r.read_buffer; version = r.version; number = r.count + 1; offset = r.at + length r.line.items; budget = r.budget } };

    ghost invariant = { λ r. (r.at + length r.line.items + length r.read_buffer + r.budget ≡ 2 ^ 30 + 1) × (r.count ≤ r.at + length r.line.items) × ((r.version ≡ 1) ⊎ (r.version ≡ 2)) };
}

impl ScriptReader {
    /// At the first line.
    pub fn new(alloc: Global) -> ScriptReader
        ensures { result ≡ record { waits = []; version = 1; number = 1; offset = 0; budget = 2 ^ 30 + 1 } }
    {
        ScriptReader {
            read_buffer: ReadBuffer::new(),
            line: Vec::new(alloc),
            at: 0,
            version: 1,
            count: 0,
            budget: SCRIPT_MOST + 1,
        }
    }

    /// Whether a whole line waits, so that none is waited for.
    pub fn holds_line(&self) -> bool
        ensures holds { result ≡ true → HoldsLine self.now.waits }
        ensures none { result ≡ false → NoEnd self.now.waits }
    {
        self.read_buffer.holds_line()
    }

    /// Reads the next line; none at the end of the source, or behind more than 2^30 octets of the script.
    /// `Script` where the line is outside the grammar, or holds an octet past the first 2^30 of the script;
    /// `Read` where the source fails; `NoMemory` where memory runs out.
    pub fn next<L: ScriptLine, S: Source>(
        &mut self,
        alloc: Global,
        source: &mut S,
    ) -> Result<Option<L>, Status>
        ensures next { (got : List ℕ) × TookIn (S.left source.old) (S.left source.new) got
            × IsNextBy L.spelled L.followed result self.old self.new got (S.left source.new) × (length got + self.new.budget ≡ self.old.budget) }
        ensures fits { IfOk result (λ found. IfSome found (λ line. L.fits self.old.version self.old.number line)) }
        ensures near { length self.old.waits ≤ 4096 → (length self.new.waits ≤ 4096) × (length self.old.waits + self.old.budget ≤ self.new.budget + 74097) }
        ensures given { (S.left source.new).count + self.new.budget ≤ (S.left source.old).count + self.old.budget }
        ensures cause { IsCaused Status.Read result (S.faults source.old) (S.faults source.new) (S.failed source.new) }
    {
        self.at += self.line.len() as u64;
        self.line.clear();
        let found = next_line(
            &mut self.read_buffer,
            source,
            &mut self.line,
            &mut self.budget,
        )?;
        if !found {
            return Ok(None);
        }
        let number = self.count + 1;
        self.count = number;
        L::are_framed();
        match line_at::<L>(alloc, self.version, number, self.at, &self.line) {
            Ok(line) => {
                self.version = line.version_after(self.version);
                Ok(Some(line))
            }
            Err(fault) => Err(refused(number, fault)),
        }
    }

    /// What waits behind the lines that were read, with its offset, and how many octets may still be asked for.
    pub(crate) fn into_rest(self) -> (ReadBuffer, u64, u64)
        ensures rest { (result.0 ≡ self.waits) × (result.1 ≡ self.offset) × (result.2 ≡ self.budget) }
        ensures room { result.1 + length result.0 + result.2 ≡ 2 ^ 30 + 1 }
    {
        let offset = self.at + self.line.len() as u64;
        let ScriptReader {
            read_buffer,
            budget,
            ..
        } = self;
        (read_buffer, offset, budget)
    }
}

/// The line of this number, which begins at this offset of a script of that version.
fn line_at<L: ScriptLine>(
    alloc: Global,
    version: u8,
    number: u64,
    at: u64,
    line: &[u8],
) -> Result<L, ReadLineFault>
    requires version { (version ≡ 1) ⊎ (version ≡ 2) }
    requires within { at + length line.now ≤ 2 ^ 30 + 1 }
    ensures exact { Gives result (spelled_at L.spelled version number at line.now) }
    ensures fits { IfOk result (λ l. L.fits version number l) }
{
    if at + line.len() as u64 > SCRIPT_MOST {
        return Err(ReadLineFault::Script(ScriptFault::Length));
    }
    L::read(alloc, version, number, line)
}

fn refused(number: u64, fault: ReadLineFault) -> Status
    ensures { result ≡ refused_as number fault }
{
    match fault {
        ReadLineFault::NoMemory => Status::NoMemory,
        ReadLineFault::Script(fault) => Status::Script {
            line: number,
            fault,
        },
    }
}
