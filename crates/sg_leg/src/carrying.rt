//! The text that the other side gets.

ghost use Rattle.std.specs.Prelude.{◌≡◌, ◌≤◌, ◌<◌, ◌++◌, ◌∷◌, [], length, map, IfOk, OnOk};
ghost use Rattle.sg_agreement.specs.CarriedTexts.{carried_text, exchanged, ports_from, rtp_port, with_media_lines};
ghost use Rattle.sg_sdp.specs.declared.medium.Medium as descriptions;
ghost use Rattle.sg_leg.specs.Texts.{with_lines_at};

use arrayvec::ArrayVec;
use sg_base::{FIRST_PORT, MEDIUM_PORTS, NoMemory, Octets, SLOT_PORTS, Side};
use sg_sdp::{Lines, Medium, Profile, Sdp};
use std::alloc::Global;

/// The gateway's RTP port of a medium towards a side.
fn rtp_port(slot: u8, medium: u8, side: Side) -> u16
    requires { medium < 4 }
    ensures { result ≡ rtp_port slot medium side }
{
    let first = FIRST_PORT + SLOT_PORTS * u16::from(slot) + MEDIUM_PORTS * u16::from(medium);
    match side {
        Side::Secure => first,
        Side::Plain => first + 2,
    }
}

/// The ports of media towards a side; a medium that isn't active has port 0.
pub(crate) fn ports_of(slot: u8, side: Side, active: &[bool]) -> ArrayVec<u16, 4>
    requires { length active.now ≤ 4 }
    ensures ports { result.items ≡ ports_from slot 0 side active.now }
    ensures count { length result.items ≡ length active.now }
{
    let mut ports = ArrayVec::new();
    for (m, on) in active.iter().enumerate() {
        ports.push(if *on {
            rtp_port(slot, m as u8, side)
        } else {
            0
        });
    }
    ports
}

/// The profile of the other side that goes with one.
pub(crate) fn exchanged(profile: Profile) -> Profile
    ensures { result ≡ exchanged profile }
{
    match profile {
        Profile::Avp => Profile::Savp,
        Profile::Savp => Profile::Avp,
        Profile::Avpf => Profile::Savpf,
        Profile::Savpf => Profile::Avpf,
        Profile::Other => Profile::Other,
    }
}

/// The text for a side: a description carried over to these ports and profiles, with these lines last in its
/// session part and in each medium.
pub(crate) fn carried_text(
    alloc: Global,
    ports: &[u16],
    profiles: &[Profile],
    session: &[Octets],
    media: &[Lines],
    sdp: &Sdp,
) -> Result<Octets, NoMemory>
    requires ports { length ports.now ≡ length sdp.now.media }
    requires profiles { length profiles.now ≡ length sdp.now.media }
    requires media { length media.now ≤ length sdp.now.media }
    ensures { IfOk result (λ text. text ≡ carried_text ports.now profiles.now (record { session = session.now; media = media.now }) sdp.now) }
{
    let mut carried = sdp.carry(alloc, ports, profiles)?;
    add_session_lines(&mut carried, session)?;
    add_media_lines(&mut carried, media)?;
    carried.print(alloc)
}

fn add_session_lines(sdp: &mut Sdp, lines: &[Octets]) -> Result<(), NoMemory>
    ensures added { OnOk result (sdp.new ≡ record sdp.old { session = sdp.old.session ++ lines.now }) }
    ensures count { length sdp.new.media ≡ length sdp.old.media }
{
    for line in lines {
        sdp.add_session_line(line.as_slice())?;
    }
    Ok(())
}

fn add_lines_at(sdp: &mut Sdp, medium: usize, lines: &[Octets]) -> Result<(), NoMemory>
    requires { medium < length sdp.old.media }
    ensures added { OnOk result (sdp.new ≡ record sdp.old { media = with_lines_at medium lines.now sdp.old.media }) }
    ensures count { length sdp.new.media ≡ length sdp.old.media }
{
    for line in lines {
        sdp.add_media_line(medium, line.as_slice())?;
    }
    Ok(())
}

fn add_media_lines(sdp: &mut Sdp, media: &[Lines]) -> Result<(), NoMemory>
    requires { length media.now ≤ length sdp.old.media }
    ensures added { OnOk result (sdp.new ≡ record sdp.old { media = with_media_lines sdp.old.media media.now }) }
{
    for (medium, lines) in media.iter().enumerate() {
        add_lines_at(sdp, medium, lines.as_slice())?;
    }
    Ok(())
}
