//! What a run answers.

ghost use Rattle.std.specs.Prelude.{◌≡◌, Some};
ghost use Rattle.sg_trace.specs.StatusText.{script_fault_name, status_number, status_text};
ghost use Rattle.sg_pcap.specs.Skips.{capture_fault_name};

use sg_base::ScriptFault;
use sg_pcap::CaptureFault;
use std::fmt;

/// How a run has ended. It holds no octet of a key.
#[derive(Clone, Copy, PartialEq, Eq)]
pub enum Status {
    /// All is handled, and the source is at its end.
    Done,
    /// The words aren't a command.
    Usage,
    /// This line, from 1, is the first outside the grammar, with its first fault.
    Script { line: u64, fault: ScriptFault },
    /// The source failed.
    Read,
    /// The sink failed.
    Write,
    /// The link failed.
    Link,
    /// Memory is wanting.
    NoMemory,
    /// The clock failed.
    Clock,
    /// The source of noise failed.
    Noise,
    /// All turns were taken, and a `tick` line asks for one more.
    TurnsSpent,
    /// At this offset of a capture stands its first fault.
    Capture { offset: u64, fault: CaptureFault },
}

fn fault_name(fault: ScriptFault) -> &'static str
    ensures { result.now ≡ script_fault_name fault }
{
    match fault {
        ScriptFault::Word => "Word",
        ScriptFault::Number => "Number",
        ScriptFault::Hex => "Hex",
        ScriptFault::Length => "Length",
        ScriptFault::Version => "Version",
        ScriptFault::Unended => "Unended",
    }
}

fn capture_fault_name(fault: CaptureFault) -> &'static str
    ensures { result.now ≡ capture_fault_name fault }
{
    match fault {
        CaptureFault::Magic => "Magic",
        CaptureFault::Version => "Version",
        CaptureFault::LinkType => "LinkType",
        CaptureFault::Cut => "Cut",
        CaptureFault::Length => "Length",
    }
}

impl Status {
    /// The number with which the program ends.
    pub fn number(self) -> u8
        ensures { result ≡ status_number self }
    {
        match self {
            Status::Done => 0,
            Status::Usage => 1,
            Status::Script { .. } => 2,
            Status::Read => 3,
            Status::Write => 4,
            Status::Link => 5,
            Status::NoMemory => 6,
            Status::Clock => 7,
            Status::Noise => 8,
            Status::TurnsSpent => 9,
            Status::Capture { .. } => 10,
        }
    }
}

/// What the program says on standard error; nothing where all is done.
impl fmt::Display for Status {
    ghost output = { λ s. Some (status_text s) };

    fn fmt<W: fmt::Write>(&self, f: &mut fmt::Formatter<W>) -> fmt::Result {
        match *self {
            Status::Done => write!(f, ""),
            Status::Usage => write!(f, "srtpgw: usage"),
            Status::Script { line, fault } => {
                let name = fault_name(fault);
                write!(f, "srtpgw: script line {line}: {name}")
            }
            Status::Read => write!(f, "srtpgw: read failed"),
            Status::Write => write!(f, "srtpgw: write failed"),
            Status::Link => write!(f, "srtpgw: link failed"),
            Status::NoMemory => write!(f, "srtpgw: no memory"),
            Status::Clock => write!(f, "srtpgw: clock failed"),
            Status::Noise => write!(f, "srtpgw: noise failed"),
            Status::TurnsSpent => write!(f, "srtpgw: turns spent"),
            Status::Capture { offset, fault } => {
                let name = capture_fault_name(fault);
                write!(f, "srtpgw: capture octet {offset}: {name}")
            }
        }
    }
}
