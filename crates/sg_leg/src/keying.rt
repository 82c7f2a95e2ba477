//! How the secure side is keyed, from the offer on.

ghost use Rattle.std.specs.Prelude.{◌≡◌, ◌≤◌, ◌<◌, List, Ok, length, map, IfOk};
ghost use Rattle.sg_agreement.specs.CarriedTexts.{crypto_attribute};
ghost use Rattle.sg_agreement.specs.EachMedium.{each_active, if_active};
ghost use Rattle.sg_agreement.specs.Keying as agreed;
ghost use Rattle.sg_agreement.specs.Keying.{attributes_of};
ghost use Rattle.sg_agreement.specs.Offers.{chosen_in, keying_of, noise_of};
ghost use Rattle.sg_agreement.specs.Messages.{AtHand};
ghost use Rattle.sg_leg.specs.Messages.{IsAtHand};
ghost use Rattle.sg_agreement.specs.Sides.{is_active};
ghost use Rattle.sg_psk.specs.declared.pairs.Pair.{Pair};
ghost use Rattle.sg_psk.specs.declared.replays.Noted.{Noted};
ghost use Rattle.sg_session.specs.Stages.{after_ok};
ghost use Rattle.sg_base.specs.declared.addresses.Side.TheVariants as sides;
ghost use Rattle.sg_sdes.specs.Answers.{offered_by};
ghost use Rattle.sg_leg.specs.Answering.{Gives, Tells};
ghost use Rattle.sg_leg.specs.Open.{HasRoom, IsOpeningOf};

use crate::attributes::{crypto_values, has_message};
use crate::keyed::{crypto_attribute, noise_of};
use crate::messages::{by_messages, by_own_message};
use sg_agreement::{Way, is_active};
use sg_base::{Fault, NoMemory, Refusal, Side};
use sg_csmap::StreamKeys;
use sg_mikey::Items;
use sg_psk::{Initial, PskBook, ReplayBook, Waiting};
use sg_sdes::{CryptoLine, choose, offer_lines};
use sg_sdp::{Lines, Medium, Sdp};
use std::alloc::Global;

/// An initiator's message that was accepted, and what both sides send in each medium that it covers.
#[derive(Drop)]
pub struct Bundle {
    pub initial: Initial,
    pub streams: Items<(StreamKeys, StreamKeys)>,
}

/// How the secure side is keyed: by lines of the peer's that the gateway chose, by lines that the gateway offers, by
/// the peer's message for all active media, by its messages for one each, or by the gateway's message. A list has an
/// entry for each medium, none for an idle one.
#[derive(Drop)]
pub enum Keying {
    PeerLines(Items<Option<CryptoLine>>),
    OwnLines(Items<Option<[CryptoLine; 2]>>),
    PeerMessage(Bundle),
    PeerMessages(Items<Option<Bundle>>),
    OwnMessage(Waiting),
}

/// How an offer is keyed, and the lines that are added to the text for the other side.
#[derive(Drop)]
pub struct Opening {
    pub keying: Keying,
    pub session: Lines,
    pub media: Vec<Lines>,
}

/// The first of a medium's lines that the gateway reads.
fn chosen_in(alloc: Global, m: u8, medium: &Medium) -> Result<CryptoLine, Fault>
    ensures { Tells result (chosen_in m medium.now) }
{
    let Ok(values) = crypto_values(alloc, medium.lines.as_slice()) else {
        return Err(Fault::NoMemory);
    };
    match choose(&values) {
        Ok(line) => Ok(line),
        Err(fault) => Err(Fault::Refused(Refusal::Sdes { medium: m, fault })),
    }
}

fn chosen_if(alloc: Global, m: u8, medium: &Medium) -> Result<Option<CryptoLine>, Fault>
    ensures { Tells result (if_active (is_active sides.Secure medium.now) (chosen_in m medium.now)) }
{
    if !is_active(Side::Secure, medium) {
        return Ok(None);
    }
    match chosen_in(alloc, m, medium) {
        Ok(line) => Ok(Some(line)),
        Err(fault) => Err(fault),
    }
}

/// The chosen line of each active medium of an offer from the secure side.
pub(crate) fn chosen_lines(
    alloc: Global,
    media: &[Medium],
) -> Result<Items<Option<CryptoLine>>, Fault>
    requires { length media.now ≤ 4 }
    ensures { Tells result (each_active sides.Secure chosen_in 0 media.now) }
{
    let mut lines = Vec::new(alloc);
    for (m, medium) in media.iter().enumerate() {
        match chosen_if(alloc, m as u8, medium) {
            Ok(next) => lines.push(next)?,
            Err(fault) => return Err(fault),
        }
    }
    Ok(Items::from_vec(lines))
}

fn own_lines_if(noise: &[u8; 304], m: u8, medium: &Medium) -> Option<[CryptoLine; 2]>
    requires { m < 4 }
    ensures { if_active (is_active sides.Plain medium.now) (Ok (offered_by (noise_of m noise.now))) ≡ Ok result }
{
    if !is_active(Side::Plain, medium) {
        return None;
    }
    Some(offer_lines(&noise_of(m, noise)))
}

/// The gateway's lines for each active medium of an offer from the plain side.
pub(crate) fn own_lines(
    alloc: Global,
    noise: &[u8; 304],
    media: &[Medium],
) -> Result<Items<Option<[CryptoLine; 2]>>, NoMemory>
    requires { length media.now ≤ 4 }
    ensures count { IfOk result (λ lines. length lines ≡ length media.now) }
    ensures lines { IfOk result (λ lines. each_active sides.Plain (λ k m. Ok (offered_by (noise_of k noise.now))) 0 media.now ≡ Ok lines) }
{
    let mut lines = Vec::new(alloc);
    for (m, medium) in media.iter().enumerate() {
        lines.push(own_lines_if(noise, m as u8, medium))?;
    }
    Ok(Items::from_vec(lines))
}

fn attributes_in(alloc: Global, lines: &Option<[CryptoLine; 2]>) -> Result<Lines, NoMemory>
    ensures { IfOk result (λ texts. texts ≡ attributes_of lines.now) }
{
    match lines {
        None => Ok(Lines::new(alloc)),
        Some(lines) => attributes_all(alloc, lines),
    }
}

fn attributes_all(alloc: Global, lines: &[CryptoLine]) -> Result<Lines, NoMemory>
    ensures { IfOk result (λ texts. texts ≡ map crypto_attribute lines.now) }
{
    let mut texts = Lines::new(alloc);
    for line in lines {
        texts.push(crypto_attribute(alloc, line)?)?;
    }
    Ok(texts)
}

/// The attributes that the gateway's lines add to each medium.
pub(crate) fn attributes_of(
    alloc: Global,
    media: &[Option<[CryptoLine; 2]>],
) -> Result<Vec<Lines>, NoMemory>
    ensures texts { IfOk result (λ texts. texts.items ≡ map attributes_of media.now) }
    ensures count { IfOk result (λ texts. length texts.items ≡ length media.now) }
{
    let mut all = Vec::new(alloc);
    for lines in media {
        all.push(attributes_in(alloc, lines)?)?;
    }
    Ok(all)
}

/// The keying of an offer whose media the peer's lines key.
pub(crate) fn by_peer_lines(alloc: Global, media: &[Medium]) -> Result<Opening, Fault>
    requires { length media.now ≤ 4 }
    ensures lines { IfOk result (λ o. length o.media.items ≡ 0) }
    ensures room { IfOk result (λ o. (noted : List Noted) → HasRoom o.keying noted) }
    ensures keying { (pairs : List Pair) → Gives (IsOpeningOf pairs) result (after_ok (each_active sides.Secure chosen_in 0 media.now) (λ lines. Ok (agreed.PeerLines lines))) }
{
    match chosen_lines(alloc, media) {
        Ok(lines) => Ok(Opening {
            keying: Keying::PeerLines(lines),
            session: Lines::new(alloc),
            media: Vec::new(alloc),
        }),
        Err(fault) => Err(fault),
    }
}

/// The keying of an offer whose media the gateway's lines key.
pub(crate) fn by_own_lines(
    alloc: Global,
    noise: &[u8; 304],
    media: &[Medium],
) -> Result<Opening, Fault>
    requires { length media.now ≤ 4 }
    ensures lines { IfOk result (λ o. length o.media.items ≡ length media.now) }
    ensures room { IfOk result (λ o. (noted : List Noted) → HasRoom o.keying noted) }
    ensures keying { (pairs : List Pair) → Gives (IsOpeningOf pairs) result
        (after_ok (each_active sides.Plain (λ k m. Ok (offered_by (noise_of k noise.now))) 0 media.now) (λ lines. Ok (agreed.OwnLines lines))) }
{
    let Ok(lines) = own_lines(alloc, noise, media) else {
        return Err(Fault::NoMemory);
    };
    let Ok(texts) = attributes_of(alloc, lines.as_slice()) else {
        return Err(Fault::NoMemory);
    };
    Ok(Opening {
        keying: Keying::OwnLines(lines),
        session: Lines::new(alloc),
        media: texts,
    })
}

/// How an offer is keyed: from the secure side by a message where it has one, and else by the lines that are chosen;
/// from the plain side as the caller says.
pub(crate) fn keying_of(
    alloc: Global,
    way: &Way,
    sdp: &Sdp,
    noise: &[u8; 304],
    now: u64,
    psks: &PskBook,
    seen: &ReplayBook,
) -> Result<Opening, Fault>
    requires few { length sdp.now.media ≤ 4 }
    requires moment { now ≤ 2085978495999 }
    ensures keying { (h : AtHand) → IsAtHand h now psks.now seen.now → h.noise ≡ noise.now → Gives (IsOpeningOf psks.now) result (keying_of h sdp.now way.now) }
    ensures room { IfOk result (λ o. HasRoom o.keying seen.now) }
    ensures lines { IfOk result (λ o. length o.media.items ≤ length sdp.now.media) }
{
    let media = sdp.media.as_slice();
    match way {
        Way::FromSecure => {
            if has_message(sdp) {
                by_messages(alloc, psks, seen, now, sdp)
            } else {
                by_peer_lines(alloc, media)
            }
        }
        Way::SdesFromPlain => by_own_lines(alloc, noise, media),
        Way::MikeyFromPlain(peer) => by_own_message(alloc, psks, peer, now, noise, media),
    }
}
