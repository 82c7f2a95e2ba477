//! The command `migrate`: the lines of a script, in order.

ghost use Rattle.std.specs.Prelude.{◌≡◌, ◌≤◌, ◌+◌, ◌^◌, ℕ, List};
ghost use Rattle.sg_edge.specs.Told.{Rose};
ghost use Rattle.sg_lines.specs.LineText.{line_text};
ghost use Rattle.sg_migrate.specs.Migration.{IsCompleteMigration, IsMigration};
ghost use Rattle.sg_trace.specs.Causes.{HasFailed, IsCaused};
ghost use Rattle.sg_trace.specs.Output.{IsWritten};

use crate::lines::{LineOfVersionOne, migrated_line, moment_after};
use sg_base::{Failed, NoMemory};
use sg_edge::{Noise, Sink, Source, write_all};
use sg_lines::{Line, print_line};
use sg_trace::{Play, Status, run_script};
use std::alloc::Global;

/// Writes the script of version 1 that the source holds as one of version 2: each datagram gets the greatest
/// moment of the ticks before it, or 0. `Script` at the first line outside the grammar, with those before it written: of
/// a script of version 2 at its first line. `Read` or `Write` where the source or the sink fails, `NoMemory` where
/// memory runs out. What is written is passed on before a read that may wait, and at the end, of which no clause tells.
/// It isn't inlined, so no other command has its frame.
#[inline(never)]
pub fn migrate<S: Source, K: Sink>(alloc: Global, source: &mut S, sink: &mut K) -> Status
    ensures ran { (octets out : List ℕ)
        × IsMigration result
        (record { left = S.left source.old; written = K.written sink.old })
        (record { left = S.left source.new; written = K.written sink.new })
        octets out }
    ensures given { (S.left source.new).count ≤ (S.left source.old).count + (2 ^ 30 + 1) }
    ensures read { HasFailed (result ≡ Status.Read) (S.faults source.old) (S.faults source.new) (S.failed source.new) }
    ensures write { HasFailed (result ≡ Status.Write) (K.faults sink.old) (K.faults sink.new) (K.failed sink.new) }
    ensures complete { ¬ Rose (S.faults source.old) (S.faults source.new) → ¬ Rose (K.faults sink.old) (K.faults sink.new)
        → IsCompleteMigration result (S.left source.old) (S.left source.new) }
{
    let mut migrating = Migrating { moment: 0 };
    run_script(alloc, &mut migrating, source, sink, &mut NoNoise)
}

/// What writes the lines: the greatest moment of the ticks so far, or 0.
#[derive(Drop)]
struct Migrating {
    moment: u64,
}

impl<K: Sink, N: Noise> Play<K, N> for Migrating {
    ghost use Rattle.std.specs.Prelude.{◌≡◌, ℕ, [], true, refl};
    ghost use Rattle.sg_lines.specs.declared.lines.Line.{Line};
    ghost use Rattle.sg_migrate.specs.Migrated.{effects, of_migration};

    type Line = LineOfVersionOne;

    ghost Deed = { Line };

    ghost State = { ℕ };

    ghost gives = { of_migration.gives };

    ghost effects = { effects };

    ghost stands = { λ m moment. m.moment ≡ moment };

    ghost waits = { λ _. [] };

    ghost batch = { 1 };

    ghost is_prompt = { true };

    fn play(
        &mut self,
        alloc: Global,
        line: LineOfVersionOne,
        sink: &mut K,
        _noise: &mut N,
    ) -> Result<(), Status> {
        let LineOfVersionOne { line } = line;
        let next = moment_after(self.moment, &line);
        match write_line(alloc, migrated_line(self.moment, line), sink) {
            Err(status) => return Err(status),
            Ok(()) => {}
        }
        self.moment = next;
        Ok(())
    }

    fn settle(&mut self, _alloc: Global, _sink: &mut K) -> Result<(), Status> {
        Ok(())
    }

    fn are_in_order() {}

    ghost at_once = { λ _ _. refl };
}

/// A migration draws no noise.
#[derive(Drop)]
struct NoNoise;

impl Noise for NoNoise {
    ghost use Rattle.std.specs.Prelude.{◌-◌, ◌^◌, [], None};
    ghost use Rattle.sg_edge.specs.Told.{telling};

    ghost given = { λ _. telling [] 0 };

    ghost faults = { λ _. 2 ^ 64 - 1 };

    ghost failed = { λ _. None };

    fn draw(&mut self, _part: &mut [u8]) -> Result<(), Failed> {
        Err(Failed)
    }
}

/// Writes a line, once it is printed. Where that fails, a prefix of it is written.
fn write_line<K: Sink>(alloc: Global, line: Line, sink: &mut K) -> Result<(), Status>
    ensures written { IsWritten result (K.written sink.old) (K.written sink.new) (line_text line) }
    ensures cause { IsCaused Status.Write result (K.faults sink.old) (K.faults sink.new) (K.failed sink.new) }
{
    let printed = print_line(alloc, &line);
    drop(line);
    let text = match printed {
        Err(NoMemory) => return Err(Status::NoMemory),
        Ok(text) => text,
    };
    match write_all(sink, text.as_slice()) {
        Err(Failed) => Err(Status::Write),
        Ok(()) => Ok(()),
    }
}
