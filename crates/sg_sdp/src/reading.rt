//! A text, read line by line.

ghost use Rattle.std.specs.Prelude.{◌≡◌, ◌≤◌, ◌<◌, ◌^◌, ◌==◌, length, map, IfOk, Ok};
ghost use Rattle.std.specs.List.{slice_split};
ghost use Rattle.sg_sdp.specs.Descriptions.{IsSdp, IsWithinLimits, Spells, all_lines};
ghost use Rattle.sg_sdp.specs.Faults.{Tells, fault_of, is_in_order};
ghost use Rattle.sg_sdp.specs.LineForm.{view_head, without_cr};
ghost use Rattle.sg_sdp.specs.Reading.{Changes, Gives, at_line, description_of, description_within, end_of, form_of, lines_of, opened, step, view_form};
ghost use Rattle.sg_sdp.specs.declared.sdp.Sdp.{Sdp};

use crate::addresses::{address_all, first_address};
use crate::faults::ReadSdpFault;
use crate::form::{MediaLine, connection, has_form, profile_of, read_head, without_cr};
use crate::medium::{Lines, Media, Medium};
use crate::sdp::Sdp;
use sg_base::{MEDIA_MOST, NoMemory, Octets, SDP_LINE_MOST, SDP_MOST, SdpFault};
use std::alloc::{AllocError, Global};

// The head of a medium at an `m=` line, and nothing at another.
#[tactic(auto, unfolding(crate::specs::Reading::form_of))]
fn form(line: &[u8]) -> Result<Option<MediaLine<'_>>, SdpFault>
    ensures value { view_form result ≡ form_of 2048 line.now }
    ensures long { IfOk result (λ _. 2 ≤ length line.now) }
{
    if line.len() > SDP_LINE_MOST {
        return Err(SdpFault::TooLong);
    }
    if !has_form(line) {
        return Err(SdpFault::Form);
    }
    if line[0] != b'm' {
        return Ok(None);
    }
    match read_head(&line[2..]) {
        Some(head) => Ok(Some(head)),
        None => Err(SdpFault::Form),
    }
}

// Whether the line may stand there.
#[tactic(auto, unfolding(crate::specs::Faults::is_in_order))]
fn is_in_order(number: u32, line: &[u8]) -> bool
    ensures { result ≡ is_in_order number line.now }
{
    match number {
        1 => line == b"v=0".as_slice(),
        2 => matches!(line, [b'o', ..]),
        3 => matches!(line, [b's', ..]),
        _ => true,
    }
}

// A medium with no line yet.
#[tactic(auto, unfolding(crate::specs::Reading::opened))]
fn open(alloc: Global, head: MediaLine<'_>) -> Result<Medium, NoMemory>
    ensures { IfOk result (λ m. m ≡ opened (view_head head.entry)) }
{
    Ok(Medium {
        word: Octets::copy_of(alloc, head.word)?,
        port: head.port,
        profile: profile_of(head.proto),
        proto: Octets::copy_of(alloc, head.proto)?,
        formats: Octets::copy_of(alloc, head.formats)?,
        address: None,
        lines: Lines::new(alloc),
    })
}

// One line more.
#[tactic(auto, unfolding(crate::specs::Reading::step, crate::specs::Reading::placed))]
fn add(alloc: Global, sdp: &mut Sdp, number: u32, line: &[u8]) -> Result<(), ReadSdpFault>
    ensures { Changes result sdp.new (at_line number (step 2048 number sdp.old line.now)) }
{
    let head = match form(line) {
        Ok(head) => head,
        Err(fault) => return Err(ReadSdpFault::Sdp {
            line: number,
            fault,
        }),
    };
    if !is_in_order(number, line) {
        return Err(ReadSdpFault::Sdp {
            line: number,
            fault: SdpFault::Order,
        });
    }
    let Some(head) = head else {
        if line[0] == b'c' && connection(&line[2..]).is_none() {
            return Err(ReadSdpFault::Sdp {
                line: number,
                fault: SdpFault::Address,
            });
        }
        sdp.add_last_line(line)?;
        return Ok(());
    };
    if sdp.media.len() == MEDIA_MOST {
        return Err(ReadSdpFault::Sdp {
            line: number,
            fault: SdpFault::TooManyMedia,
        });
    }
    sdp.media.push(open(alloc, head)?)?;
    Ok(())
}

// What is left behind the last line end, which is to be nothing.
#[tactic(auto, unfolding(crate::specs::Reading::end_of))]
fn end(number: u32, rest: &[u8]) -> Result<(), SdpFault>
    ensures { result ≡ end_of 2048 number rest.now }
{
    if rest.len() > SDP_LINE_MOST {
        return Err(SdpFault::TooLong);
    }
    if !rest.is_empty() {
        return Err(SdpFault::Form);
    }
    if number <= 3 {
        return Err(SdpFault::Order);
    }
    Ok(())
}

// The description of the parts between line ends, with no address.
#[tactic(auto, unfolding(crate::specs::Reading::lines_of))]
fn lines(alloc: Global, parts: &[&[u8]]) -> Result<Sdp, ReadSdpFault>
    requires some { 0 < length parts.now }
    requires few { length parts.now < 2 ^ 32 }
    ensures { Gives result (lines_of 2048 (map (λ x. x.now) parts.now)) }
{
    let last = parts[parts.len() - 1];
    let mut sdp = Sdp {
        session: Lines::new(alloc),
        media: Media::new(alloc),
    };
    let mut number = 1;
    for line in &parts[..parts.len() - 1] {
        add(alloc, &mut sdp, number, without_cr(line))?;
        number += 1;
    }
    match end(number, last) {
        Ok(()) => Ok(sdp),
        Err(fault) => Err(ReadSdpFault::Sdp {
            line: number,
            fault,
        }),
    }
}

// The parts between line ends.
fn parts(alloc: Global, text: &[u8]) -> Result<Vec<&[u8]>, AllocError>
    ensures { IfOk result (λ v. map (λ x. x.now) v.items ≡ slice_split (λ b. b == 10) text.now) }
{
    text.split(|b| *b == b'\n').collect(alloc)
}

// The description that a text of lines that aren't too long is.
#[tactic(auto, unfolding(crate::specs::Reading::description_within))]
fn described(alloc: Global, text: &[u8]) -> Result<Sdp, ReadSdpFault>
    requires { length text.now ≤ 16384 }
    ensures { Gives result (description_within 2048 text.now) }
{
    let parts = parts(alloc, text)?;
    let mut sdp = lines(alloc, &parts)?;
    let session = first_address(sdp.session.as_slice());
    address_all(sdp.media.as_mut_slice(), session);
    Ok(sdp)
}

// The description that a text is.
#[tactic(auto, unfolding(crate::specs::Reading::description_of))]
fn limited(alloc: Global, text: &[u8]) -> Result<Sdp, ReadSdpFault>
    ensures { Gives result (description_of text.now) }
{
    if text.len() > SDP_MOST {
        return Err(ReadSdpFault::Sdp {
            line: 0,
            fault: SdpFault::TooLong,
        });
    }
    described(alloc, text)
}

/// The description that a text is, all of the text.
///
/// A text above 16,384 octets is `TooLong` at line 0. Else the fault is that of the first line that has
/// one: `TooLong` above 2,048 octets, then `Form`, then `Order`, then `Address` or `TooManyMedia`. A text
/// that ends before its third line is `Order` at the line after its last. That an active medium has an
/// address isn't asked.
pub fn read(alloc: Global, text: &[u8]) -> Result<Sdp, ReadSdpFault>
    // What is read is a description within the limits, and the text is its lines, each ended by CR LF or LF.
    ensures found { IfOk result (λ s. IsSdp s × IsWithinLimits s text.now × Spells (all_lines s) text.now) }

    // Such a text is read as that description, unless out of memory.
    ensures only { (s : Sdp) → IsSdp s → IsWithinLimits s text.now → Spells (all_lines s) text.now → Gives result (Ok s) }

    // Every other text is refused, with its first fault and that line's number.
    ensures first_fault { Tells result (fault_of text.now) }

    // What is read of each text, in one definition.
    ensures exact { Gives result (description_of text.now) }
{
    limited(alloc, text)
}
