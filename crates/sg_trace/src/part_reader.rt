//! Parts of a source.

ghost use Rattle.std.specs.Prelude.{◌≡◌, ◌⊎◌, ◌<◌, ◌+◌, length, ◌≤◌, ℕ, List, [], max, IfErr, Err};
ghost use Rattle.sg_trace.specs.CaptureReading.{HasPart};
ghost use Rattle.sg_trace.specs.Causes.{IsCaused};
ghost use Rattle.sg_edge.specs.Told.{TookIn};

use crate::read_buffer::ReadBuffer;
use crate::status::Status;
use sg_edge::Source;

/// Reads on until `part` has so many octets, or to the end of the source or of the budget. `Read` where the source fails:
/// all that came is in `part` then, and those are fewer; `NoMemory` where memory runs out.
pub fn next_part<S: Source>(
    read_buffer: &mut ReadBuffer,
    source: &mut S,
    part: &mut Vec<u8>,
    count: usize,
    budget: &mut u64,
) -> Result<(), Status>
    ensures got { (got : List ℕ) × TookIn (S.left source.old) (S.left source.new) got
        × HasPart result count part.old.items part.new.items read_buffer.old read_buffer.new got (S.left source.new) budget.new × (length got + budget.new ≡ budget.old) }
    ensures given { (S.left source.new).count + budget.new ≤ (S.left source.old).count + budget.old }
    ensures only { IfErr result (λ status. (status ≡ Status.Read) ⊎ (status ≡ Status.NoMemory)) }
    ensures most { length part.new.items ≤ max count (length part.old.items) }
    ensures near { length read_buffer.old ≤ 4096 → length read_buffer.new ≤ 4096 }
    ensures short { result ≡ Err Status.Read → (length part.new.items < count) × (read_buffer.new ≡ []) }
    ensures cause { IsCaused Status.Read result (S.faults source.old) (S.faults source.new) (S.failed source.new) }
{
    while part.len() < count {
        match read_buffer.fill(source, budget) {
            Ok(()) => {}
            Err(_) => return Err(Status::Read),
        }
        if read_buffer.is_empty() {
            return Ok(());
        }
        let most = count - part.len();
        match read_buffer.move_part(part, most) {
            Ok(()) => {}
            Err(_) => return Err(Status::NoMemory),
        }
    }
    Ok(())
}
