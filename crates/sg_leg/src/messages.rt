//! MIKEY messages of offers and answers (RFC 4567, 3.1; RFC 3830).

ghost use Rattle.std.specs.Prelude.{◌≡◌, ◌≤◌, ◌<◌, ◌^◌, ◌++◌, ◌∷◌, [], ℕ, List, Some, Ok, length, slice_get, IfOk, IfSome};
ghost use Rattle.base64.specs.Engines.{standard_no_pad};
ghost use Rattle.base64.specs.GeneralPurpose.{decode_of};
ghost use Rattle.sg_agreement.specs.Attributes.{mikey_octets, mikey_value, octets_behind, own_ssrc};
ghost use Rattle.sg_agreement.specs.CarriedTexts.{mikey_attribute};
ghost use Rattle.sg_agreement.specs.Messages.{AtHand, bundle_in, message_in};
ghost use Rattle.sg_mikey.specs.Reading.{message_of};
ghost use Rattle.sg_sdes.specs.KeyTexts.{base64_at, ok_of};
ghost use Rattle.sg_leg.specs.Answering.{Gives, Tells};
ghost use Rattle.sg_agreement.specs.Attributes.{ssrcs_of};
ghost use Rattle.sg_agreement.specs.EachMedium.{each_active, if_active};
ghost use Rattle.sg_agreement.specs.Keying as agreed;
ghost use Rattle.sg_agreement.specs.Offers.{keying_by_messages};
ghost use Rattle.sg_agreement.specs.Refusals.{of_psk};
ghost use Rattle.sg_agreement.specs.Sides.{active_count, is_active};
ghost use Rattle.sg_base.specs.declared.addresses.Side.TheVariants as sides;
ghost use Rattle.sg_psk.specs.Pairs.{pair_with};
ghost use Rattle.sg_psk.specs.Sending.{sent_under};
ghost use Rattle.sg_session.specs.Stages.{after_ok};
ghost use Rattle.sg_leg.specs.Messages.{IsAtHand, cs_fault, message_fault, of_kind, psk_fault, read_of};
ghost use Rattle.sg_leg.specs.Open.{HasRoom, IsBundleIf, IsBundleOf, IsOpeningOf};
ghost use Rattle.sg_leg.specs.declared.keying.Bundle as kept;
ghost use Rattle.sg_psk.specs.declared.replays.Noted.{Noted};
ghost use Rattle.sg_leg.specs.Pairs.{EachPair};

use crate::attributes::{mikey_value, own_ssrc};
use crate::keying::{Bundle, Keying, Opening};
use arrayvec::ArrayVec;
use base64::DecodeAllocError;
use base64::engine::general_purpose::{STANDARD, STANDARD_NO_PAD};
use sg_agreement::is_active;
use sg_base::{Fault, Identity, MikeyFault, NoMemory, Octets, Refusal, Side};
use sg_csmap::{CsError, streams};
use sg_mikey::{Items, Message, ReadMikeyFault, read};
use sg_psk::{PskBook, PskError, ReplayBook, initiate, read_initial};
use sg_sdp::{Lines, Medium, Sdp};
use std::alloc::Global;

/// More octets than any text of a description spells.
const MESSAGE_MOST: usize = 1_048_576;

/// The octets that a text spells without closing `=`.
fn read_bare(alloc: Global, text: &[u8]) -> Result<Option<Octets>, NoMemory>
    ensures value { IfOk result (λ o. o ≡ ok_of (decode_of standard_no_pad text.now)) }
{
    match STANDARD_NO_PAD.decode(alloc, text) {
        Ok(octets) => Ok(Some(Octets::from_vec(octets))),
        Err(DecodeAllocError::OutOfMemory) => Err(NoMemory),
        Err(DecodeAllocError::DecodeError(_)) => Ok(None),
    }
}

/// The octets that a text spells, with all its closing `=` or with none.
#[tactic(auto, unfolding(sg_sdes::specs::KeyTexts::base64_at))]
fn read_base64(alloc: Global, text: &[u8]) -> Result<Option<Octets>, NoMemory>
    ensures { IfOk result (λ o. o ≡ base64_at text.now) }
{
    match STANDARD.decode(alloc, text) {
        Ok(octets) => Ok(Some(Octets::from_vec(octets))),
        Err(DecodeAllocError::OutOfMemory) => Err(NoMemory),
        Err(DecodeAllocError::DecodeError(_)) => read_bare(alloc, text),
    }
}

/// The octets behind the space of an attribute's value.
fn octets_behind(alloc: Global, value: &[u8]) -> Result<Option<Octets>, NoMemory>
    ensures { IfOk result (λ o. o ≡ octets_behind value.now) }
{
    match value {
        [] => Ok(None),
        [_, text @ ..] => read_base64(alloc, text),
    }
}

/// The octets of the message of these lines.
#[tactic(auto, unfolding(sg_agreement::specs::Attributes::mikey_octets))]
fn mikey_octets(alloc: Global, lines: &[Octets]) -> Result<Option<Octets>, NoMemory>
    ensures { IfOk result (λ o. o ≡ mikey_octets (mikey_value lines.now)) }
{
    match mikey_value(lines) {
        None => Ok(None),
        Some(value) => octets_behind(alloc, value),
    }
}

fn message_fault(medium: u8, fault: ReadMikeyFault) -> Fault
    ensures { result ≡ message_fault medium fault }
{
    match fault {
        ReadMikeyFault::Mikey { offset, fault } => Fault::Refused(Refusal::Mikey {
            medium,
            offset,
            fault,
        }),
        ReadMikeyFault::NoMemory => Fault::NoMemory,
    }
}

pub(crate) fn psk_fault(medium: u8, fault: PskError) -> Fault
    ensures { result ≡ psk_fault medium fault }
{
    match fault {
        PskError::Psk(fault) => Fault::Refused(Refusal::Psk { medium, fault }),
        PskError::NoMemory => Fault::NoMemory,
    }
}

pub(crate) fn cs_fault(medium: u8, fault: CsError) -> Fault
    ensures { result ≡ cs_fault medium fault }
{
    match fault {
        CsError::Cs(fault) => Fault::Refused(Refusal::Cs { medium, fault }),
        CsError::NoMemory => Fault::NoMemory,
    }
}

/// A message that is read is of this kind, or is refused.
fn of_kind(medium: u8, kind: u8, message: Message) -> Result<Message, Fault>
    ensures { result ≡ of_kind medium kind message }
{
    if message.kind != kind {
        return Err(Fault::Refused(Refusal::Mikey {
            medium,
            offset: 1,
            fault: MikeyFault::DataType,
        }));
    }
    Ok(message)
}

/// The octets and the message that they spell, which is to be of this kind.
fn read_of(alloc: Global, medium: u8, kind: u8, octets: Octets) -> Result<(Octets, Message), Fault>
    ensures message { Tells result (read_of medium kind octets) }
    ensures read { IfOk result (λ r. message_of r.0 ≡ Ok r.1) }
{
    // No line has so many octets.
    if octets.as_slice().len() > MESSAGE_MOST {
        return Err(Fault::NoMemory);
    }
    match read(alloc, octets.as_slice()) {
        Ok(message) => match of_kind(medium, kind, message) {
            Ok(message) => Ok((octets, message)),
            Err(fault) => Err(fault),
        },
        Err(fault) => Err(message_fault(medium, fault)),
    }
}

/// The octets and the message of these lines, in the medium of this number or, with 255, in the session part.
pub(crate) fn message_in(
    alloc: Global,
    medium: u8,
    kind: u8,
    lines: &[Octets],
) -> Result<(Octets, Message), Fault>
    ensures message { Tells result (message_in medium kind (mikey_value lines.now)) }
    ensures read { IfOk result (λ r. message_of r.0 ≡ Ok r.1) }
{
    let Ok(octets) = mikey_octets(alloc, lines) else {
        return Err(Fault::NoMemory);
    };
    match octets {
        None => Err(Fault::Refused(Refusal::KeyMgmt { medium })),
        Some(octets) => read_of(alloc, medium, kind, octets),
    }
}

/// The peer's message for so many media.
pub(crate) fn bundle_in(
    alloc: Global,
    psks: &PskBook,
    seen: &ReplayBook,
    now: u64,
    medium: u8,
    count: usize,
    lines: &[Octets],
) -> Result<Bundle, Fault>
    requires moment { now ≤ 2085978495999 }
    requires few { count ≤ 4 }
    ensures bundle { (h : AtHand) → IsAtHand h now psks.now seen.now → Gives (IsBundleOf psks.now) result (bundle_in h medium count (mikey_value lines.now)) }
    ensures room { IfOk result (λ _. length seen.now ≤ 1020) }
{
    let (octets, message) = match message_in(alloc, medium, 0, lines) {
        Ok(read) => read,
        Err(fault) => return Err(fault),
    };
    let initial = match read_initial(alloc, octets.as_slice(), &message, psks, seen, now) {
        Ok(initial) => initial,
        Err(fault) => {
            drop(message);
            drop(octets);
            return Err(psk_fault(medium, fault));
        }
    };
    drop(message);
    drop(octets);
    let random = initial.random.as_slice();
    let map = initial.map.as_slice();
    let policies = initial.policies.as_slice();
    match streams(
        alloc,
        initial.csb,
        random,
        map,
        policies,
        &initial.tgks,
        count,
    ) {
        Ok(streams) => Ok(Bundle {
            initial,
            streams: Items::from_vec(streams),
        }),
        Err(fault) => {
            drop(initial);
            Err(cs_fault(medium, fault))
        }
    }
}

fn bundle_if(
    alloc: Global,
    psks: &PskBook,
    seen: &ReplayBook,
    now: u64,
    m: u8,
    medium: &Medium,
) -> Result<Option<Bundle>, Fault>
    requires moment { now ≤ 2085978495999 }
    ensures room { IfOk result (λ o. IfSome o (λ _. length seen.now ≤ 1020)) }
    ensures bundle { (h : AtHand) → IsAtHand h now psks.now seen.now
        → Gives (IsBundleIf psks.now) result (if_active (is_active sides.Secure medium.now) (bundle_in h m 1 (mikey_value medium.now.lines))) }
{
    if !is_active(Side::Secure, medium) {
        return Ok(None);
    }
    match bundle_in(alloc, psks, seen, now, m, 1, medium.lines.as_slice()) {
        Ok(bundle) => Ok(Some(bundle)),
        Err(fault) => Err(fault),
    }
}

/// The peer's messages, one for each active medium.
fn bundles(
    alloc: Global,
    psks: &PskBook,
    seen: &ReplayBook,
    now: u64,
    media: &[Medium],
) -> Result<Items<Option<Bundle>>, Fault>
    requires few { length media.now ≤ 4 }
    requires moment { now ≤ 2085978495999 }
    ensures count { IfOk result (λ bundles. length bundles ≡ length media.now) }
    ensures room { IfOk result (λ bundles. (i : ℕ) (b : kept.Bundle) → slice_get bundles i ≡ Some (Some b) → length seen.now ≤ 1020) }
    ensures bundles { (h : AtHand) → IsAtHand h now psks.now seen.now
        → Gives (EachPair (IsBundleIf psks.now)) result (each_active sides.Secure (λ k m. bundle_in h k 1 (mikey_value m.lines)) 0 media.now) }
{
    let mut bundles = Vec::new(alloc);
    for (m, medium) in media.iter().enumerate() {
        match bundle_if(alloc, psks, seen, now, m as u8, medium) {
            Ok(next) => bundles.push(next)?,
            Err(fault) => return Err(fault),
        }
    }
    Ok(Items::from_vec(bundles))
}

/// How many media are active on a side.
pub(crate) fn active_count(side: Side, media: &[Medium]) -> usize
    ensures value { result ≡ active_count side media.now }
    ensures most { result ≤ length media.now }
{
    let mut count = 0;
    for medium in media {
        if is_active(side, medium) {
            count += 1;
        }
    }
    count
}

/// The keying of an offer whose message stands in the session part.
fn by_session(
    alloc: Global,
    psks: &PskBook,
    seen: &ReplayBook,
    now: u64,
    sdp: &Sdp,
) -> Result<Opening, Fault>
    requires few { length sdp.now.media ≤ 4 }
    requires moment { now ≤ 2085978495999 }
    ensures keying { (h : AtHand) → IsAtHand h now psks.now seen.now → Gives (IsOpeningOf psks.now) result
        (after_ok (bundle_in h 255 (active_count sides.Secure sdp.now.media) (mikey_value sdp.now.session)) (λ b. Ok (agreed.PeerMessage b))) }
    ensures room { IfOk result (λ o. HasRoom o.keying seen.now) }
    ensures lines { IfOk result (λ o. length o.media.items ≤ length sdp.now.media) }
{
    let count = active_count(Side::Secure, sdp.media.as_slice());
    match bundle_in(alloc, psks, seen, now, 255, count, sdp.session.as_slice()) {
        Ok(bundle) => Ok(Opening {
            keying: Keying::PeerMessage(bundle),
            session: Lines::new(alloc),
            media: Vec::new(alloc),
        }),
        Err(fault) => Err(fault),
    }
}

/// The keying of an offer whose media have messages of their own.
fn by_media(
    alloc: Global,
    psks: &PskBook,
    seen: &ReplayBook,
    now: u64,
    media: &[Medium],
) -> Result<Opening, Fault>
    requires few { length media.now ≤ 4 }
    requires moment { now ≤ 2085978495999 }
    ensures keying { (h : AtHand) → IsAtHand h now psks.now seen.now → Gives (IsOpeningOf psks.now) result
        (after_ok (each_active sides.Secure (λ k m. bundle_in h k 1 (mikey_value m.lines)) 0 media.now) (λ bs. Ok (agreed.PeerMessages bs))) }
    ensures room { IfOk result (λ o. HasRoom o.keying seen.now) }
    ensures lines { IfOk result (λ o. length o.media.items ≤ length media.now) }
{
    match bundles(alloc, psks, seen, now, media) {
        Ok(bundles) => Ok(Opening {
            keying: Keying::PeerMessages(bundles),
            session: Lines::new(alloc),
            media: Vec::new(alloc),
        }),
        Err(fault) => Err(fault),
    }
}

/// The keying of an offer from the secure side that has a message.
pub(crate) fn by_messages(
    alloc: Global,
    psks: &PskBook,
    seen: &ReplayBook,
    now: u64,
    sdp: &Sdp,
) -> Result<Opening, Fault>
    requires few { length sdp.now.media ≤ 4 }
    requires moment { now ≤ 2085978495999 }
    ensures keying { (h : AtHand) → IsAtHand h now psks.now seen.now
        → Gives (IsOpeningOf psks.now) result (keying_by_messages h sdp.now (mikey_value sdp.now.session)) }
    ensures room { IfOk result (λ o. HasRoom o.keying seen.now) }
    ensures lines { IfOk result (λ o. length o.media.items ≤ length sdp.now.media) }
{
    if mikey_value(sdp.session.as_slice()).is_some() {
        return by_session(alloc, psks, seen, now, sdp);
    }
    by_media(alloc, psks, seen, now, sdp.media.as_slice())
}

/// A key management attribute that carries a message.
fn mikey_attribute(alloc: Global, octets: &[u8]) -> Result<Octets, NoMemory>
    ensures { IfOk result (λ text. text ≡ mikey_attribute octets.now) }
{
    let mut text = Vec::from_slice(alloc, b"a=key-mgmt:mikey ")?;
    text.extend_from_slice(STANDARD.encode(alloc, octets)?.as_bytes())?;
    Ok(Octets::from_vec(text))
}

/// The same as the one line of a part.
pub(crate) fn mikey_lines(alloc: Global, octets: &[u8]) -> Result<Lines, NoMemory>
    ensures { IfOk result (λ lines. lines ≡ mikey_attribute octets.now ∷ []) }
{
    let mut lines = Lines::new(alloc);
    lines.push(mikey_attribute(alloc, octets)?)?;
    Ok(lines)
}

/// The gateway's SSRCs of the active media of the plain side.
fn ssrcs_of(side: Side, media: &[Medium]) -> ArrayVec<u32, 4>
    requires { length media.now ≤ 4 }
    ensures { result.items ≡ ssrcs_of side media.now }
{
    let mut ssrcs = ArrayVec::new();
    for medium in media {
        if is_active(side, medium) {
            ssrcs.push(own_ssrc(medium.lines.as_slice()));
        }
    }
    ssrcs
}

/// The keying of an offer from the plain side by the gateway's own message to this peer.
pub(crate) fn by_own_message(
    alloc: Global,
    psks: &PskBook,
    peer: &Identity,
    now: u64,
    noise: &[u8; 304],
    media: &[Medium],
) -> Result<Opening, Fault>
    requires few { length media.now ≤ 4 }
    requires moment { now ≤ 2085978495999 }
    ensures lines { IfOk result (λ o. length o.media.items ≡ 0) }
    ensures room { IfOk result (λ o. (noted : List Noted) → HasRoom o.keying noted) }
    ensures keying { Gives (IsOpeningOf psks.now) result
        (after_ok (of_psk 255 (sent_under now noise.now (ssrcs_of sides.Plain media.now) (pair_with psks.now peer.now))) (λ s. Ok (agreed.OwnMessage s))) }
{
    let ssrcs = ssrcs_of(Side::Plain, media);
    let (octets, waiting) = match initiate(alloc, psks, peer, now, noise, ssrcs.as_slice()) {
        Ok(sent) => sent,
        Err(fault) => return Err(psk_fault(255, fault)),
    };
    let Ok(session) = mikey_lines(alloc, octets.as_slice()) else {
        return Err(Fault::NoMemory);
    };
    Ok(Opening {
        keying: Keying::OwnMessage(waiting),
        session,
        media: Vec::new(alloc),
    })
}
