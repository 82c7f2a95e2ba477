//! The lines of a bridge's script, read.

ghost use Rattle.std.specs.Prelude.{◌≡◌, ◌⊎◌, ℕ, map, IfOk};
ghost use Rattle.sg_lines.specs.Fields.{Gives};
ghost use Rattle.sg_lines.specs.LineOf.{line_of};
ghost use Rattle.sg_pairs.specs.BridgeLines.{FitsBridgeLine, bridge_line_of, bridge_said_by, join_from, of_script, part_from};

use crate::lines::BridgeLine;
use sg_base::{LINE_MOST, ScriptFault};
use sg_lines::fields::call;
use sg_lines::reading::fields;
use sg_lines::{ReadLineFault, read_line};
use sg_trace::ScriptLine;
use std::alloc::Global;

#[tactic(auto, unfolding(crate::specs::BridgeLines::join_from))]
fn join(a: &[u8], b: &[u8]) -> Result<BridgeLine, ScriptFault>
    ensures exact { result ≡ join_from a.now b.now }
    ensures fits { (version number : ℕ) → IfOk result (λ l. FitsBridgeLine version number l) }
{
    let first = call(a)?;
    let second = call(b)?;
    Ok(BridgeLine::Join { first, second })
}

#[tactic(auto, unfolding(crate::specs::BridgeLines::part_from))]
fn part(text: &[u8]) -> Result<BridgeLine, ScriptFault>
    ensures exact { result ≡ part_from text.now }
    ensures fits { (version number : ℕ) → IfOk result (λ l. FitsBridgeLine version number l) }
{
    let call = call(text)?;
    Ok(BridgeLine::Part { call })
}

/// The line of a script that the octets are.
fn script_line(
    alloc: Global,
    version: u8,
    number: u64,
    octets: &[u8],
) -> Result<BridgeLine, ReadLineFault>
    requires { (version ≡ 1) ⊎ (version ≡ 2) }
    ensures exact { Gives result (of_script (line_of version number octets.now)) }
    ensures fits { IfOk result (λ l. FitsBridgeLine version number l) }
{
    let line = read_line(alloc, version, number, octets)?;
    Ok(BridgeLine::Script(line))
}

/// The line of these fields; where it joins and parts no call, it is a script's.
fn line_of_fields(
    alloc: Global,
    version: u8,
    number: u64,
    octets: &[u8],
    fields: &[&[u8]],
) -> Result<BridgeLine, ReadLineFault>
    requires { (version ≡ 1) ⊎ (version ≡ 2) }
    ensures exact { Gives result (bridge_said_by (of_script (line_of version number octets.now)) (map (λ x. x.now) fields.now)) }
    ensures fits { IfOk result (λ l. FitsBridgeLine version number l) }
{
    match fields {
        [word, a] => {
            if *word == b"part".as_slice() {
                return Ok(part(a)?);
            }
            script_line(alloc, version, number, octets)
        }
        [word, a, b] => {
            if *word == b"join".as_slice() {
                return Ok(join(a, b)?);
            }
            script_line(alloc, version, number, octets)
        }
        _ => script_line(alloc, version, number, octets),
    }
}

/// The line of a bridge's script that the octets are, its end among them, in a script of version 1 or 2: from the
/// second line on `join CALL CALL` or `part CALL`, and else what `read_line` reads, with its first fault; or
/// `NoMemory` where memory runs out.
#[tactic(auto, unfolding(crate::specs::BridgeLines::bridge_line_of))]
pub fn read_bridge_line(
    alloc: Global,
    version: u8,
    number: u64,
    octets: &[u8],
) -> Result<BridgeLine, ReadLineFault>
    requires { (version ≡ 1) ⊎ (version ≡ 2) }
    ensures exact { Gives result (bridge_line_of version number octets.now) }
    ensures fits { IfOk result (λ l. FitsBridgeLine version number l) }
{
    if octets.len() > LINE_MOST || number == 1 {
        return script_line(alloc, version, number, octets);
    }
    let Some((b'\n', body)) = octets.split_last() else {
        return script_line(alloc, version, number, octets);
    };
    let fields = fields(body);
    line_of_fields(alloc, version, number, octets, fields.as_slice())
}

impl ScriptLine for BridgeLine {
    ghost use Rattle.std.specs.Prelude.{false};
    ghost use Rattle.sg_pairs.specs.BridgeLines.{FitsBridgeLine, bridge_line_of, bridge_version_after};

    ghost spelled = { bridge_line_of };

    ghost fits = { FitsBridgeLine };

    ghost followed = { bridge_version_after };

    ghost last = { λ _. false };

    fn read(
        alloc: Global,
        version: u8,
        number: u64,
        octets: &[u8],
    ) -> Result<BridgeLine, ReadLineFault> {
        read_bridge_line(alloc, version, number, octets)
    }

    fn version_after(&self, version: u8) -> u8 {
        match self {
            BridgeLine::Script(line) => line.version_after(version),
            BridgeLine::Join { .. } => version,
            BridgeLine::Part { .. } => version,
        }
    }

    fn is_last(&self) -> bool {
        false
    }

    fn are_framed() {}
}
