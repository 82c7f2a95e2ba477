//! Octets that wait to be read into lines.

ghost use Rattle.std.specs.Prelude.{◌≡◌, ◌↔◌, ◌⊎◌, ◌<◌, ◌≤◌, ◌+◌, ◌-◌, length, ◌++◌, ℕ, List, [], take, drop, IfOk, OnOk, OnErr, true, false};
ghost use Rattle.sg_edge.specs.Told.{AtEnd, HasCause, Tells, TookIn};
ghost use Rattle.sg_lines.specs.ScriptLines.{NoEnd};
ghost use Rattle.sg_trace.specs.Fed.{EndsLine, HasMoved, HoldsLine, MovesPart};

use memchr::memchr;
use sg_base::{Failed, NoMemory};
use sg_edge::Source;
use std::marker::Model;

/// The octet that ends a line.
const LINE_END: u8 = 10;

/// Up to 4,096 octets of a source that wait, seen as their list.
#[derive(Drop)]
pub struct ReadBuffer {
    part: [u8; 4096],
    at: usize,
    end: usize,
}

impl Model for ReadBuffer {
    ghost Value = { List ℕ };

    ghost view = { λ f. take (f.end - f.at) (drop f.at f.part) };

    ghost invariant = { λ f. (f.at ≤ f.end) × (f.end ≤ 4096) };
}

impl ReadBuffer {
    /// Nothing waits.
    pub fn new() -> ReadBuffer
        ensures { result ≡ [] }
    {
        ReadBuffer {
            part: [0; 4096],
            at: 0,
            end: 0,
        }
    }

    /// Whether nothing waits.
    pub fn is_empty(&self) -> bool
        ensures { (result ≡ true) ↔ (self.now ≡ []) }
    {
        self.at == self.end
    }

    /// What waits.
    pub fn waiting(&self) -> &[u8]
        ensures { result.now ≡ self.now }
    {
        &self.part[self.at..self.end]
    }

    /// Whether a line end waits.
    pub fn holds_line(&self) -> bool
        ensures holds { result ≡ true → HoldsLine self.now }
        ensures none { result ≡ false → NoEnd self.now }
    {
        let waiting = self.waiting();
        line_in(waiting, waiting.len()).1
    }

    /// Moves a line's octets from the front to the end of `line`: all up to the first line end, or as many
    /// as there are. At most `most` are moved. True where a line end was. Out of memory, nothing is moved.
    pub fn move_line(&mut self, line: &mut Vec<u8>, most: usize) -> Result<bool, NoMemory>
        ensures moved { IfOk result (λ ended. (part : List ℕ) × MovesPart self.old self.new line.old.items line.new.items part × EndsLine ended part self.new most) }
        ensures short { OnOk result (length line.new.items ≤ length line.old.items + most) }
        ensures err { OnErr result ((self.new ≡ self.old) × (line.new.items ≡ line.old.items)) }
    {
        let waiting = &self.part[self.at..self.end];
        let (count, ended) = line_in(waiting, most);
        line.extend_from_slice(&waiting[..count])?;
        self.at += count;
        Ok(ended)
    }

    /// Moves octets from the front to the end of `part`: `most`, or as many as there are. Out of memory, none
    /// are moved.
    pub fn move_part(&mut self, part: &mut Vec<u8>, most: usize) -> Result<(), NoMemory>
        ensures moved { OnOk result ((moved : List ℕ) × MovesPart self.old self.new part.old.items part.new.items moved × HasMoved moved self.new most) }
        ensures err { OnErr result ((self.new ≡ self.old) × (part.new.items ≡ part.old.items)) }
    {
        let waiting = &self.part[self.at..self.end];
        let count = waiting.len().min(most);
        part.extend_from_slice(&waiting[..count])?;
        self.at += count;
        Ok(())
    }

    /// Where nothing waits, reads the next octets, within the budget; none at the end of the source, or where
    /// the budget is spent. Where the source fails, nothing waits.
    pub fn fill<S: Source>(&mut self, source: &mut S, budget: &mut u64) -> Result<(), Failed>
        ensures got { (got : List ℕ) × TookIn (S.left source.old) (S.left source.new) got × (self.new ≡ self.old ++ got) × (length got + budget.new ≡ budget.old) }
        ensures ended { OnOk result (self.new ≡ [] → AtEnd (S.left source.new) ⊎ (budget.new ≡ 0)) }
        ensures given { (S.left source.new).count + budget.new ≤ (S.left source.old).count + budget.old }
        ensures cause { HasCause (S.faults source.old) (S.faults source.new) result }
        ensures told { OnErr result (Tells (S.failed source.new) true) }
        ensures none { OnErr result (self.new ≡ []) }
        ensures few { length self.old ≤ 4096 → length self.new ≤ 4096 }
    {
        if !self.is_empty() || *budget == 0 {
            return Ok(());
        }
        let most = (*budget).min(self.part.len() as u64) as usize;
        self.at = 0;
        self.end = 0;
        let n = source.read(&mut self.part[..most])?;
        self.end = n;
        *budget -= n as u64;
        Ok(())
    }
}

/// How many octets of the front belong to the line, of at most `most`, and whether the last is its end.
fn line_in(waiting: &[u8], most: usize) -> (usize, bool)
    ensures count { result.0 ≤ length waiting.now }
    ensures most { result.0 ≤ most }
    ensures line { EndsLine result.1 (take result.0 waiting.now) (drop result.0 waiting.now) most }
{
    let near = &waiting[..waiting.len().min(most)];
    match memchr(LINE_END, near) {
        Some(place) => (place + 1, true),
        None => (near.len(), false),
    }
}
