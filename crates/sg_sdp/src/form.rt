//! The form of one line.

ghost use Rattle.std.specs.Prelude.{◌≡◌, ◌≤◌, length, IsTrue, option_map};
ghost use Rattle.std.specs.List.{list_all};
ghost use Rattle.sg_sdp.specs.LineForm.{connection_of, has_form, head_of, is_inner, is_printing, is_word, profile_of, view_head, without_cr};

use crate::medium::Profile;
use sg_base::{cut, read_four, read_number};

// What stands behind `m=`.
#[derive(Clone, Copy)]
pub struct MediaLine<'a> {
    pub word: &'a [u8],
    pub port: u16,
    pub proto: &'a [u8],
    pub formats: &'a [u8],
}

// A line without the CR before its LF.
#[tactic(auto, unfolding(crate::specs::LineForm::without_cr))]
pub fn without_cr(raw: &[u8]) -> &[u8]
    ensures { result.now ≡ without_cr raw.now }
{
    if let Some((b'\r', line)) = raw.split_last() {
        return line;
    }
    raw
}

fn are_inner(text: &[u8]) -> bool
    ensures { result ≡ list_all is_inner text.now }
{
    text.iter().all(|c| !matches!(*c, 0 | b'\n' | b'\r'))
}

fn are_printing(text: &[u8]) -> bool
    ensures { result ≡ list_all is_printing text.now }
{
    text.iter().all(|c| matches!(*c, 0x21..=0x7e))
}

// A letter, an equals sign, and octets that end no line (RFC 4566, 5).
#[tactic(auto, unfolding(crate::specs::LineForm::has_form))]
pub fn has_form(line: &[u8]) -> bool
    ensures value { result ≡ has_form line.now }
    ensures long { IsTrue result → 2 ≤ length line.now }
{
    match line {
        [letter, equals, rest @ ..] => {
            letter.is_ascii_lowercase() && *equals == b'=' && are_inner(rest)
        }
        _ => false,
    }
}

#[tactic(auto, unfolding(crate::specs::LineForm::is_word))]
fn is_word(text: &[u8]) -> bool
    ensures { result ≡ is_word text.now }
{
    !text.is_empty() && are_printing(text)
}

// The profile that a protocol word names.
#[tactic(auto, unfolding(crate::specs::LineForm::profile_of))]
pub fn profile_of(proto: &[u8]) -> Profile
    ensures { result ≡ profile_of proto.now }
{
    if proto == b"RTP/AVP".as_slice() {
        Profile::Avp
    } else if proto == b"RTP/SAVP".as_slice() {
        Profile::Savp
    } else if proto == b"RTP/AVPF".as_slice() {
        Profile::Avpf
    } else if proto == b"RTP/SAVPF".as_slice() {
        Profile::Savpf
    } else {
        Profile::Other
    }
}

// Behind `m=` (RFC 4566, 5.14):
//
//   | word | space | port | space | proto | space | formats |
#[tactic(auto, unfolding(crate::specs::LineForm::head_of))]
pub fn read_head(text: &[u8]) -> Option<MediaLine<'_>>
    ensures { option_map view_head result ≡ head_of text.now }
{
    let (word, rest) = cut(b' ', text)?;
    let (port, rest) = cut(b' ', rest)?;
    let (proto, formats) = cut(b' ', rest)?;
    let port = read_number(65535, port)? as u16;
    if is_word(word) && is_word(proto) && !formats.is_empty() {
        Some(MediaLine {
            word,
            port,
            proto,
            formats,
        })
    } else {
        None
    }
}

// The address behind `c=` (RFC 4566, 5.7).
#[tactic(auto, unfolding(crate::specs::LineForm::connection_of))]
pub fn connection(text: &[u8]) -> Option<[u8; 4]>
    ensures { result ≡ connection_of text.now }
{
    read_four(text.strip_prefix(b"IN IP4 ".as_slice())?)
}
