//! Lines of a source.

ghost use Rattle.std.specs.Prelude.{◌≡◌, ◌⊎◌, ◌+◌, length, ◌≤◌, ◌++◌, ℕ, List, [], IfErr, Err};
ghost use Rattle.sg_trace.specs.Causes.{IsCaused};
ghost use Rattle.sg_trace.specs.Fed.{GivesLine};
ghost use Rattle.sg_edge.specs.Told.{TookIn};
ghost use Rattle.sg_lines.specs.ScriptLines.{NoEnd};

use crate::read_buffer::ReadBuffer;
use crate::status::Status;
use sg_base::LINE_MOST;
use sg_edge::Source;

/// Reads the next line, with its line end, into the empty `line`; false at the end of the source. A line
/// stops at its line end, at the end of the source or of the budget, or above 70,000 octets. `Read` where the source fails:
/// then no line end was read; `NoMemory` where memory runs out.
pub fn next_line<S: Source>(
    read_buffer: &mut ReadBuffer,
    source: &mut S,
    line: &mut Vec<u8>,
    budget: &mut u64,
) -> Result<bool, Status>
    requires { line.old.items ≡ [] }
    ensures got { (got : List ℕ) × TookIn (S.left source.old) (S.left source.new) got
        × GivesLine result line.new.items read_buffer.old read_buffer.new got (S.left source.new) budget.new × (length got + budget.new ≡ budget.old) }
    ensures given { (S.left source.new).count + budget.new ≤ (S.left source.old).count + budget.old }
    ensures only { IfErr result (λ status. (status ≡ Status.Read) ⊎ (status ≡ Status.NoMemory)) }
    ensures near { length read_buffer.old ≤ 4096 → (length read_buffer.new ≤ 4096) × (length line.new.items ≤ 70001) }
    ensures unended { result ≡ Err Status.Read → NoEnd line.new.items × (read_buffer.new ≡ []) }
    ensures cause { IsCaused Status.Read result (S.faults source.old) (S.faults source.new) (S.failed source.new) }
{
    while line.len() <= LINE_MOST {
        match read_buffer.fill(source, budget) {
            Ok(()) => {}
            Err(_) => return Err(Status::Read),
        }
        if read_buffer.is_empty() {
            if line.as_slice().is_empty() {
                return Ok(false);
            }
            return Ok(true);
        }
        let most = LINE_MOST + 1 - line.len();
        match read_buffer.move_line(line, most) {
            Ok(true) => return Ok(true),
            Ok(false) => {}
            Err(_) => return Err(Status::NoMemory),
        }
    }
    Ok(true)
}
