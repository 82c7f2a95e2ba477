//! The numbers of a demonstration as lines.

ghost use Rattle.std.specs.Prelude.{◌≡◌, ◌++◌, IfOk, OnOk};
ghost use Rattle.sg_demo.specs.Text.{number_line, summary_text};

use crate::summary::Summary;
use sg_base::NoMemory;
use sg_lines::field_printing::{push, push_number};
use std::alloc::Global;

/// A line: a word, a space, a number and a line end.
fn push_line(out: &mut Vec<u8>, word: &[u8], number: u64) -> Result<(), NoMemory>
    ensures { OnOk result (out.new.items ≡ out.old.items ++ number_line word.now number) }
{
    push(out, word)?;
    push(out, b" ")?;
    push_number(out, number)?;
    push(out, b"\n")
}

/// The nine lines of the numbers; or `NoMemory` where memory runs out.
#[tactic(auto, unfolding(crate::specs::Text::summary_text))]
pub fn summary_text(alloc: Global, summary: &Summary) -> Result<Vec<u8>, NoMemory>
    ensures { IfOk result (λ text. text.items ≡ summary_text summary.now) }
{
    let mut out = Vec::new(alloc);
    push_line(&mut out, b"calls", summary.calls)?;
    push_line(&mut out, b"sealed", summary.sealed)?;
    push_line(&mut out, b"arrived", summary.arrived)?;
    push_line(&mut out, b"out", summary.out)?;
    push_line(&mut out, b"repeat", summary.repeat)?;
    push_line(&mut out, b"badtag", summary.badtag)?;
    push_line(&mut out, b"other", summary.other)?;
    push_line(&mut out, b"sent", summary.sent)?;
    push_line(&mut out, b"opened", summary.opened)?;
    Ok(out)
}
