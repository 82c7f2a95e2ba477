//! The description that the other side gets.

ghost use Rattle.std.specs.Prelude.{◌≡◌, length, IfOk};
ghost use Rattle.sg_sdp.specs.Carrying.{attribute_name, carried, carried_line, carried_lines, carried_media, carried_medium, carried_proto, is_one_sided, one_sided};
ghost use Rattle.std.specs.List.{list_any};
ghost use Rattle.std.specs.Str.{bytes_eq};

use crate::addresses::{address_all, first_address};
use crate::form::profile_of;
use crate::medium::{Lines, Media, Medium, Profile};
use crate::sdp::Sdp;
use sg_base::{NoMemory, Octets, cut};
use std::alloc::Global;

// The attributes that hold for one side alone.
const ONE_SIDED: [&[u8]; 13] = [
    b"crypto",
    b"key-mgmt",
    b"rtcp",
    b"rtcp-mux",
    b"candidate",
    b"end-of-candidates",
    b"remote-candidates",
    b"ice-ufrag",
    b"ice-pwd",
    b"ice-options",
    b"ice-lite",
    b"fingerprint",
    b"setup",
];

// An attribute's name: what stands before the first colon, or all of it.
#[tactic(auto, unfolding(crate::specs::Carrying::attribute_name))]
fn attribute_name(attribute: &[u8]) -> &[u8]
    ensures { result.now ≡ attribute_name attribute.now }
{
    match cut(b':', attribute) {
        Some((name, _)) => name,
        None => attribute,
    }
}

fn is_one_sided_name(name: &[u8]) -> bool
    ensures { result ≡ list_any (λ other. bytes_eq other name.now) one_sided }
{
    ONE_SIDED.iter().any(|other| *other == name)
}

#[tactic(auto, unfolding(crate::specs::Carrying::is_one_sided))]
fn is_one_sided(line: &[u8]) -> bool
    ensures { result ≡ is_one_sided line.now }
{
    match line.strip_prefix(b"a=".as_slice()) {
        Some(attribute) => is_one_sided_name(attribute_name(attribute)),
        None => false,
    }
}

// A `c=` line becomes the gateway's own.
#[tactic(auto, unfolding(crate::specs::Carrying::carried_line))]
fn carried_line(line: &[u8]) -> &[u8]
    ensures { result.now ≡ carried_line line.now }
{
    if line.starts_with(b"c=".as_slice()) {
        b"c=IN IP4 127.0.0.1"
    } else {
        line
    }
}

fn carried_lines(alloc: Global, lines: &[Octets]) -> Result<Lines, NoMemory>
    ensures { IfOk result (λ ls. ls ≡ carried_lines lines.now) }
{
    let mut carried = Lines::new(alloc);
    for line in lines {
        let line = line.as_slice();
        if !is_one_sided(line) {
            carried.push_copy(carried_line(line))?;
        }
    }
    Ok(carried)
}

// The protocol word of that profile; every other one stays.
#[tactic(auto, unfolding(crate::specs::Carrying::carried_proto))]
fn carried_proto(profile: Profile, proto: &[u8]) -> &[u8]
    ensures { result.now ≡ carried_proto profile proto.now }
{
    match profile {
        Profile::Avp => b"RTP/AVP",
        Profile::Savp => b"RTP/SAVP",
        Profile::Avpf => b"RTP/AVPF",
        Profile::Savpf => b"RTP/SAVPF",
        Profile::Other => proto,
    }
}

// A medium at that port, of that profile, before its address.
#[tactic(auto, unfolding(crate::specs::Carrying::carried_medium))]
fn carried_medium(
    alloc: Global,
    port: u16,
    profile: Profile,
    medium: &Medium,
) -> Result<Medium, NoMemory>
    ensures { IfOk result (λ m. m ≡ carried_medium port profile medium.now) }
{
    let proto = carried_proto(profile, medium.proto.as_slice());
    Ok(Medium {
        word: Octets::copy_of(alloc, medium.word.as_slice())?,
        port,
        profile: profile_of(proto),
        proto: Octets::copy_of(alloc, proto)?,
        formats: Octets::copy_of(alloc, medium.formats.as_slice())?,
        address: None,
        lines: carried_lines(alloc, medium.lines.as_slice())?,
    })
}

fn carried_media(
    alloc: Global,
    ports: &[u16],
    profiles: &[Profile],
    media: &[Medium],
) -> Result<Media, NoMemory>
    requires ports { length ports.now ≡ length media.now }
    requires profiles { length profiles.now ≡ length media.now }
    ensures { IfOk result (λ ms. ms ≡ carried_media ports.now profiles.now media.now) }
{
    let mut carried = Media::new(alloc);
    for (i, medium) in media.iter().enumerate() {
        carried.push(carried_medium(alloc, ports[i], profiles[i], medium)?)?;
    }
    Ok(carried)
}

impl Sdp {
    /// The description for the other side, with each medium's port and profile there.
    ///
    /// All lines stay in place, with these changes. Each `c=` line becomes the gateway's own. Each `m=` line
    /// has the given port, and the protocol word of the given profile, which stays as it is for `Other`. The
    /// attributes that hold for one side alone are left out.
    pub fn carry(&self, alloc: Global, ports: &[u16], profiles: &[Profile]) -> Result<Sdp, NoMemory>
        requires ports { length ports.now ≡ length self.now.media }
        requires profiles { length profiles.now ≡ length self.now.media }
        ensures value { IfOk result (λ s. s ≡ carried ports.now profiles.now self.now) }
        ensures count { IfOk result (λ s. length s.media ≡ length self.now.media) }
    {
        let session = carried_lines(alloc, self.session.as_slice())?;
        let mut media = carried_media(alloc, ports, profiles, self.media.as_slice())?;
        address_all(media.as_mut_slice(), first_address(session.as_slice()));
        Ok(Sdp { session, media })
    }
}
