//! What a side's text describes.

ghost use Rattle.std.specs.Prelude.{◌≡◌, ◌≤◌, ◌+◌, ◌^◌, Ok, Err, length, option_map, IfOk, MatchOption};
ghost use Rattle.std.specs.List.{flat_map};
ghost use Rattle.sg_agreement.specs.Described.{described, is_other_count, of_text};
ghost use Rattle.sg_sdp.specs.Descriptions.{medium_lines};
ghost use Rattle.sg_leg.specs.Answering.{Tells};
ghost use Rattle.sg_leg.specs.Texts.{checked, text_fault};

use sg_agreement::{is_any_active, unaddressed};
use sg_base::{Fault, Refusal, SdpFault, Side};
use sg_sdp::{ReadSdpFault, Sdp, read};
use std::alloc::Global;

/// What a side's text describes, or its first refusal: it isn't read, an active medium has no address, no medium is
/// active, or there is another number of media than is asked for.
pub(crate) fn describe(
    alloc: Global,
    side: Side,
    count: Option<u8>,
    text: &[u8],
) -> Result<Sdp, Fault>
    ensures described { Tells result (described side count text.now) }
    ensures few { IfOk result (λ s. length s.media ≤ 4) }
{
    match read(alloc, text) {
        Ok(sdp) => match refusal_in(side, count, &sdp) {
            None => Ok(sdp),
            Some(cause) => Err(Fault::Refused(cause)),
        },
        Err(fault) => Err(text_fault(fault)),
    }
}

fn text_fault(fault: ReadSdpFault) -> Fault
    ensures { result ≡ text_fault fault }
{
    match fault {
        ReadSdpFault::Sdp { line, fault } => Fault::Refused(Refusal::Sdp { line, fault }),
        ReadSdpFault::NoMemory => Fault::NoMemory,
    }
}

/// Why a description isn't taken from this side.
fn refusal_in(side: Side, count: Option<u8>, sdp: &Sdp) -> Option<Refusal>
    requires lines { length sdp.now.session + 1 + length (flat_map medium_lines sdp.now.media) ≤ 16385 }
    ensures { MatchOption result (checked side count sdp.now ≡ Ok sdp.now) (λ cause. checked side count sdp.now ≡ Err cause) }
{
    let first = sdp.session.as_slice().len() as u32 + 1;
    let media = sdp.media.as_slice();
    if let Some(line) = unaddressed(side, first, media) {
        return Some(Refusal::Sdp {
            line,
            fault: SdpFault::Address,
        });
    }
    if !is_any_active(side, media) {
        return Some(Refusal::NoMedia);
    }
    if is_other_count(count, media.len()) {
        return Some(Refusal::MediaCount);
    }
    None
}

fn is_other_count(count: Option<u8>, media: usize) -> bool
    ensures { result ≡ is_other_count count media }
{
    match count {
        None => false,
        Some(count) => media != usize::from(count),
    }
}
