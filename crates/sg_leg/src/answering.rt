//! The answer to an open offer: how each medium is keyed, what is agreed of it, and the text for the side that
//! offered.

ghost use Rattle.sg_agreement.specs.Keyed as agreed;
ghost use Rattle.sg_base.specs.declared.faults.Refusal.{Refusal};
ghost use Rattle.std.specs.Prelude.{List, [], Option, Result, ◌≡◌, ◌≤◌, ◌<◌, true, length, map, IfOk, is_some, option_map};
ghost use Rattle.sg_agreement.specs.Answers.{answered, lines_of};
ghost use Rattle.sg_agreement.specs.EachMedium.{each_kept, if_kept};
ghost use Rattle.sg_agreement.specs.Keyed.{address_of, media_agreed, medium_agreed, medium_between};
ghost use Rattle.sg_agreement.specs.LineAnswers.{keyed_by_own_lines, keyed_by_peer_line};
ghost use Rattle.sg_agreement.specs.Sides.{actives, actives_after, other_side};
ghost use Rattle.sg_agreement.specs.CarriedTexts.{carried_text, exchanged, ports_from};
ghost use Rattle.sg_sdp.specs.declared.medium.Medium as descriptions;
ghost use Rattle.sg_leg.specs.Answering.{Tells};
ghost use Rattle.sg_leg.specs.Open.{AreAddressed};

use crate::carrying::{carried_text, exchanged, ports_of};
use crate::keyed::{KeyedMedium, keyed_by_own_lines, keyed_by_peer_line};
use crate::media::AgreedMedium;
use arrayvec::ArrayVec;
use sg_agreement::is_active;
use sg_base::{Address, Fault, NoMemory, Octets, Side};
use sg_mikey::Items;
use sg_sdes::CryptoLine;
use sg_sdp as sdp;
use sg_sdp::{Lines, Profile};
use std::alloc::Global;
use std::marker::Model;

/// How each medium that is active after the answer is keyed, and the lines that the gateway adds to the session
/// part.
#[derive(Drop)]
pub(crate) struct Answered {
    pub session: Lines,
    pub media: Items<Option<KeyedMedium>>,
}

impl Model for Answered {
    ghost use Rattle.sg_agreement.specs.Answers as agreed;

    ghost Value = { agreed.Answered };

    ghost view = { λ a. record { session = a.session; media = a.media } };
}

pub(crate) fn other_side(side: Side) -> Side
    ensures { result ≡ other_side side }
{
    match side {
        Side::Secure => Side::Plain,
        Side::Plain => Side::Secure,
    }
}

/// Which media are active on a side.
pub(crate) fn actives(side: Side, media: &[sdp::Medium]) -> ArrayVec<bool, 4>
    requires { length media.now ≤ 4 }
    ensures { result.items ≡ actives side media.now }
{
    let mut active = ArrayVec::new();
    for medium in media {
        active.push(is_active(side, medium));
    }
    active
}

/// Which media are active after an answer.
pub(crate) fn actives_after(
    side: Side,
    offered: &[sdp::Medium],
    answered: &[sdp::Medium],
) -> ArrayVec<bool, 4>
    requires few { length offered.now ≤ 4 }
    requires count { length answered.now ≡ length offered.now }
    ensures { result.items ≡ actives_after side offered.now answered.now }
{
    let mut active = ArrayVec::new();
    for (m, medium) in offered.iter().enumerate() {
        active.push(is_active(side, medium) && is_active(other_side(side), &answered[m]));
    }
    active
}

fn answered_by_peer_line_if(
    alloc: Global,
    noise: &[u8; 304],
    m: u8,
    active: bool,
    line: &Option<CryptoLine>,
    answer: &sdp::Medium,
) -> Result<Option<KeyedMedium>, Fault>
    requires { m < 4 }
    ensures { Tells result (if_kept active line.now (λ x. keyed_by_peer_line noise.now m x answer.now)) }
{
    match line {
        Some(line) if active => match keyed_by_peer_line(alloc, noise, m, line) {
            Ok(keyed) => Ok(Some(keyed)),
            Err(NoMemory) => Err(Fault::NoMemory),
        },
        _ => Ok(None),
    }
}

/// The media of an answer to an offer that is keyed by lines of the peer's.
pub(crate) fn answered_by_peer_lines(
    alloc: Global,
    noise: &[u8; 304],
    active: &[bool],
    lines: &[Option<CryptoLine>],
    media: &[sdp::Medium],
) -> Result<Items<Option<KeyedMedium>>, Fault>
    requires few { length media.now ≤ 4 }
    requires actives { length active.now ≡ length media.now }
    requires lines { length lines.now ≡ length media.now }
    ensures { Tells result (each_kept (keyed_by_peer_line noise.now) 0 active.now lines.now media.now) }
{
    let mut keyed = Vec::new(alloc);
    for (m, medium) in media.iter().enumerate() {
        match answered_by_peer_line_if(alloc, noise, m as u8, active[m], &lines[m], medium) {
            Ok(next) => keyed.push(next)?,
            Err(fault) => return Err(fault),
        }
    }
    Ok(Items::from_vec(keyed))
}

fn answered_by_own_lines_if(
    alloc: Global,
    m: u8,
    active: bool,
    lines: &Option<[CryptoLine; 2]>,
    answer: &sdp::Medium,
) -> Result<Option<KeyedMedium>, Fault>
    ensures { Tells result (if_kept active lines.now (λ x. keyed_by_own_lines m x answer.now)) }
{
    match lines {
        Some(lines) if active => match keyed_by_own_lines(alloc, m, lines, answer) {
            Ok(keyed) => Ok(Some(keyed)),
            Err(cause) => Err(Fault::Refused(cause)),
        },
        _ => Ok(None),
    }
}

/// The media of an answer to an offer that is keyed by lines of the gateway's.
pub(crate) fn answered_by_own_lines(
    alloc: Global,
    active: &[bool],
    lines: &[Option<[CryptoLine; 2]>],
    media: &[sdp::Medium],
) -> Result<Items<Option<KeyedMedium>>, Fault>
    requires few { length media.now ≤ 4 }
    requires actives { length active.now ≡ length media.now }
    requires lines { length lines.now ≡ length media.now }
    ensures { Tells result (each_kept keyed_by_own_lines 0 active.now lines.now media.now) }
{
    let mut keyed = Vec::new(alloc);
    for (m, medium) in media.iter().enumerate() {
        match answered_by_own_lines_if(alloc, m as u8, active[m], &lines[m], medium) {
            Ok(next) => keyed.push(next)?,
            Err(fault) => return Err(fault),
        }
    }
    Ok(Items::from_vec(keyed))
}

/// An answer whose media are keyed so, with no line of the session part.
pub(crate) fn of_media(
    alloc: Global,
    media: Result<Items<Option<KeyedMedium>>, Fault>,
) -> Result<Answered, Fault>
    ensures { (r : Result (List (Option agreed.Keyed)) Refusal) → Tells media r → Tells result (answered [] r) }
{
    match media {
        Ok(media) => Ok(Answered {
            session: Lines::new(alloc),
            media,
        }),
        Err(fault) => Err(fault),
    }
}

/// The lines that are added to each medium.
pub(crate) fn lines_of(alloc: Global, keyed: &[Option<KeyedMedium>]) -> Result<Vec<Lines>, NoMemory>
    ensures { IfOk result (λ lines. lines.items ≡ map lines_of keyed.now) }
{
    let mut all = Vec::new(alloc);
    for medium in keyed {
        all.push(lines_in(alloc, medium)?)?;
    }
    Ok(all)
}

fn lines_in(alloc: Global, keyed: &Option<KeyedMedium>) -> Result<Lines, NoMemory>
    ensures { IfOk result (λ lines. lines ≡ lines_of keyed.now) }
{
    let mut lines = Lines::new(alloc);
    if let Some(keyed) = keyed {
        for line in keyed.lines.as_slice() {
            lines.push_copy(line.as_slice())?;
        }
    }
    Ok(lines)
}

/// Where a medium takes packets; an active one has an address.
fn address_of(medium: &sdp::Medium) -> Address
    requires { is_some medium.now.address ≡ true }
    ensures { result ≡ address_of medium.now }
{
    let Some(ip) = medium.address else {
        unreachable!()
    };
    Address {
        ip,
        port: medium.port,
    }
}

fn medium_between(keyed: &KeyedMedium, secure: &sdp::Medium, plain: &sdp::Medium) -> AgreedMedium
    requires secure { is_some secure.now.address ≡ true }
    requires plain { is_some plain.now.address ≡ true }
    ensures { result ≡ medium_between keyed.now secure.now plain.now }
{
    AgreedMedium {
        from_peer: keyed.from_peer.clone(),
        to_peer: keyed.to_peer.clone(),
        window: keyed.window,
        has_rtcp: secure.port < 65535 && plain.port < 65535,
        secure: address_of(secure),
        plain: address_of(plain),
    }
}

/// What an offered medium of this side and that of the answer agree.
fn medium_agreed(
    side: Side,
    keyed: &KeyedMedium,
    offered: &sdp::Medium,
    answered: &sdp::Medium,
) -> AgreedMedium
    requires offered { is_some offered.now.address ≡ true }
    requires answered { is_some answered.now.address ≡ true }
    ensures { result ≡ medium_agreed side keyed.now offered.now answered.now }
{
    match side {
        Side::Secure => medium_between(keyed, offered, answered),
        Side::Plain => medium_between(keyed, answered, offered),
    }
}

fn agreed_if(
    side: Side,
    keyed: &Option<KeyedMedium>,
    offered: &sdp::Medium,
    answered: &sdp::Medium,
) -> Option<AgreedMedium>
    requires offered { is_some keyed.now ≡ true → is_some offered.now.address ≡ true }
    requires answered { is_some keyed.now ≡ true → is_some answered.now.address ≡ true }
    ensures { result ≡ option_map (λ k. medium_agreed side k offered.now answered.now) keyed.now }
{
    match keyed {
        None => None,
        Some(keyed) => Some(medium_agreed(side, keyed, offered, answered)),
    }
}

/// What is agreed of each medium, and nothing of one that isn't keyed.
pub(crate) fn media_agreed(
    alloc: Global,
    side: Side,
    offered: &[sdp::Medium],
    answered: &[sdp::Medium],
    keyed: &[Option<KeyedMedium>],
) -> Result<Vec<Option<AgreedMedium>>, NoMemory>
    requires answers { length answered.now ≡ length offered.now }
    requires keyed { length keyed.now ≡ length offered.now }
    requires addressed { AreAddressed offered.now answered.now keyed.now }
    ensures { IfOk result (λ media. media.items ≡ media_agreed side offered.now answered.now keyed.now) }
{
    let mut media = Vec::new(alloc);
    for (m, medium) in keyed.iter().enumerate() {
        let next = agreed_if(side, medium, &offered[m], &answered[m]);
        media.push(next)?;
    }
    Ok(media)
}

/// The text for the side that offered: each medium at the gateway's port, with the offer's profile.
pub(crate) fn answered_text(
    alloc: Global,
    slot: u8,
    side: Side,
    offered: &[sdp::Medium],
    answer: &sdp::Sdp,
    active: &[bool],
    keyed: &Answered,
) -> Result<Octets, NoMemory>
    requires few { length offered.now ≤ 4 }
    requires answers { length answer.now.media ≡ length offered.now }
    requires actives { length active.now ≡ length offered.now }
    requires keyed { length keyed.now.media ≡ length offered.now }
    ensures { IfOk result (λ text. text ≡ carried_text (ports_from slot 0 side active.now) (map (λ (m : descriptions.Medium). m.profile) offered.now)
        (record { session = keyed.now.session; media = map lines_of keyed.now.media }) answer.now) }
{
    let ports = ports_of(slot, side, active);
    let profiles = profiles_of(alloc, offered)?;
    let lines = lines_of(alloc, keyed.media.as_slice())?;
    let session = keyed.session.as_slice();
    carried_text(alloc, ports.as_slice(), &profiles, session, &lines, answer)
}

fn profiles_of(alloc: Global, media: &[sdp::Medium]) -> Result<Vec<Profile>, NoMemory>
    ensures { IfOk result (λ profiles. profiles.items ≡ map (λ (m : descriptions.Medium). m.profile) media.now) }
{
    let mut profiles = Vec::new(alloc);
    for medium in media {
        profiles.push(medium.profile)?;
    }
    Ok(profiles)
}

fn exchanged_profiles(alloc: Global, media: &[sdp::Medium]) -> Result<Vec<Profile>, NoMemory>
    ensures { IfOk result (λ profiles. profiles.items ≡ map (λ (m : descriptions.Medium). exchanged m.profile) media.now) }
{
    let mut profiles = Vec::new(alloc);
    for medium in media {
        profiles.push(exchanged(medium.profile))?;
    }
    Ok(profiles)
}

/// The text of an offer for the other side: each medium at the gateway's port towards it, with its profile.
pub(crate) fn offered_text(
    alloc: Global,
    slot: u8,
    side: Side,
    offer: &sdp::Sdp,
    session: &[Octets],
    media: &[Lines],
) -> Result<Octets, NoMemory>
    requires few { length offer.now.media ≤ 4 }
    requires lines { length media.now ≤ length offer.now.media }
    ensures { IfOk result (λ text. text ≡ carried_text (ports_from slot 0 (other_side side) (actives side offer.now.media))
        (map (λ (m : descriptions.Medium). exchanged m.profile) offer.now.media) (record { session = session.now; media = media.now }) offer.now) }
{
    let active = actives(side, offer.media.as_slice());
    let ports = ports_of(slot, other_side(side), active.as_slice());
    let profiles = exchanged_profiles(alloc, offer.media.as_slice())?;
    carried_text(alloc, ports.as_slice(), &profiles, session, media, offer)
}
