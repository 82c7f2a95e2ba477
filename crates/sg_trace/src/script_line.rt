//! Lines of a kind of script.

ghost use Rattle.std.specs.Prelude.{◌≡◌, ◌⊎◌, ℕ, Bool, IfOk};
ghost use Rattle.sg_lines.specs.Fields.{Gives};
ghost use Rattle.sg_trace.specs.Reading.{IsFramed};
ghost use Rattle.sg_trace.specs.Trace.{Spelling};

use sg_lines::{Line, ReadLineFault, read_line};
use std::alloc::Global;

/// What a line of a kind of script may say.
pub trait ScriptLine: Sized {
    /// Which octets are which line.
    ghost spelled: { Spelling Self };

    /// What is so of each line that is read, by its version and number.
    ghost fits: { ℕ → ℕ → Self → Type 0 };

    /// Of which version the lines behind it are.
    ghost followed: { ℕ → Self → ℕ };

    /// Whether it is the last: behind it stands no line.
    ghost last: { Self → Bool };

    /// The line of this number, from 1, in a script of that version, that the octets are, its end among them.
    fn read(alloc: Global, version: u8, number: u64, octets: &[u8]) -> Result<Self, ReadLineFault>
        requires { (version ≡ 1) ⊎ (version ≡ 2) }
        ensures exact { Gives result (spelled version number octets.now) }
        ensures fits { IfOk result (λ l. fits version number l) };

    /// The version of what follows the line.
    fn version_after(&self, version: u8) -> u8
        requires { (version ≡ 1) ⊎ (version ≡ 2) }
        ensures is { result ≡ followed version self.now }
        ensures one_of_two { (result ≡ 1) ⊎ (result ≡ 2) };

    /// Whether it is the last: behind it stands no line.
    fn is_last(&self) -> bool
        ensures { result ≡ last self.now };

    /// No line is read without its end, and one that is too long is told so first.
    fn are_framed()
        ensures { IsFramed spelled };
}

impl ScriptLine for Line {
    ghost use Rattle.std.specs.Prelude.{false};
    ghost use Rattle.sg_lines.specs.LineOf.{line_of, version_after};
    ghost use Rattle.sg_lines.specs.LineText.{FitsLine};

    ghost spelled = { line_of };

    ghost fits = { FitsLine };

    ghost followed = { version_after };

    ghost last = { λ _. false };

    fn read(alloc: Global, version: u8, number: u64, octets: &[u8]) -> Result<Line, ReadLineFault> {
        read_line(alloc, version, number, octets)
    }

    fn version_after(&self, version: u8) -> u8 {
        match self {
            Line::Header => 1,
            Line::HeaderTwo => 2,
            _ => version,
        }
    }

    fn is_last(&self) -> bool {
        false
    }

    fn are_framed() {}
}
