//! One line of a script, as it is migrated.

ghost use Rattle.std.specs.Prelude.{◌≡◌};
ghost use Rattle.sg_migrate.specs.Migrated.{migrated_line, moment_after};

use sg_base::ScriptFault;
use sg_lines::{Line, ReadLineFault, Signal, read_line};
use sg_trace::ScriptLine;
use std::alloc::Global;

/// A line that a script of version 1 may have: any but the other header, which is `Version`.
#[derive(Drop)]
pub struct LineOfVersionOne {
    pub(crate) line: Line,
}

impl ScriptLine for LineOfVersionOne {
    ghost use Rattle.std.specs.Prelude.{false};
    ghost use Rattle.sg_lines.specs.LineText.{FitsLine};
    ghost use Rattle.sg_migrate.specs.Migrated.{old_line_of};

    ghost spelled = { old_line_of };

    ghost fits = { λ version number l. FitsLine version number l.line };

    ghost followed = { λ version l. 1 };

    ghost last = { λ _. false };

    fn read(
        alloc: Global,
        version: u8,
        number: u64,
        octets: &[u8],
    ) -> Result<LineOfVersionOne, ReadLineFault> {
        match read_line(alloc, version, number, octets) {
            Err(fault) => Err(fault),
            Ok(Line::HeaderTwo) => Err(ReadLineFault::Script(ScriptFault::Version)),
            Ok(line) => Ok(LineOfVersionOne { line }),
        }
    }

    fn version_after(&self, _version: u8) -> u8 {
        1
    }

    fn is_last(&self) -> bool {
        false
    }

    fn are_framed() {}
}

/// The greatest moment of the ticks as far as behind the line, by that before it.
pub(crate) fn moment_after(moment: u64, line: &Line) -> u64
    ensures { result ≡ moment_after moment line.now }
{
    match line {
        Line::Signal(kept) => match kept.signal() {
            Signal::Tick { now } => moment.max(*now),
            _ => moment,
        },
        _ => moment,
    }
}

/// The line of version 2: a datagram comes at the moment.
pub(crate) fn migrated_line(moment: u64, line: Line) -> Line
    ensures { result ≡ migrated_line moment line }
{
    match line {
        Line::Header => Line::HeaderTwo,
        Line::Datagram { port, from, octets } => Line::DatagramAt {
            now: moment,
            port,
            from,
            octets,
        },
        other => other,
    }
}
