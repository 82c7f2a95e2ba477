//! How a medium of an answer is keyed.

ghost use Rattle.std.specs.Prelude.{◌≡◌, ◌<◌, IfOk};
ghost use Rattle.sg_sdes.specs.Answers.{answer_by};
ghost use Rattle.sg_agreement.specs.Attributes.{crypto_values, first_of};
ghost use Rattle.sg_agreement.specs.CarriedTexts.{crypto_attribute};
ghost use Rattle.sg_agreement.specs.LineAnswers.{keyed_by_answer, keyed_by_matched, keyed_by_own_lines, keyed_by_peer_line, lines_matched};
ghost use Rattle.sg_agreement.specs.Offers.{noise_of};
ghost use Rattle.sg_agreement.specs.Refusals.{of_sdes};
ghost use Rattle.sg_agreement.specs.Streams.{stream_of_line, window_of};
ghost use Rattle.sg_leg.specs.Answering.{Tells};

use crate::attributes::first_crypto_value;
use crate::media::SideKeys;
use sg_base::{Fault, NoMemory, Octets, Refusal, SdesFault, WINDOW_LEAST, WINDOW_MOST};
use sg_keys::Admit;
use sg_sdes::{CryptoLine, answer_line, match_answer, print_crypto};
use sg_sdp::{Lines, Medium};
use std::alloc::Global;
use std::marker::Model;

/// What both sides of a medium send, the window in which the gateway opens, and the lines that it adds to the
/// medium of the answer.
#[derive(Drop)]
pub(crate) struct KeyedMedium {
    pub from_peer: SideKeys,
    pub to_peer: SideKeys,
    pub window: u16,
    pub lines: Lines,
}

impl Model for KeyedMedium {
    ghost use Rattle.sg_agreement.specs.Keyed as agreed;

    ghost Value = { agreed.Keyed };

    ghost view = { λ k. record { from_peer = k.from_peer; to_peer = k.to_peer; window = k.window; lines = k.lines } };
}

/// What the sender of a line sends under it. What isn't encrypted, the peer's line says.
fn stream_of_line(peer: &CryptoLine, line: &CryptoLine) -> SideKeys
    ensures { result ≡ stream_of_line peer.now line.now }
{
    SideKeys {
        suite: line.suite,
        keys: line.keys.clone(),
        roc: 0,
        admit: Admit::Any,
        encrypts_rtp: !peer.plain_rtp,
        encrypts_rtcp: !peer.plain_rtcp,
    }
}

/// The window in which the gateway opens what a line's sender sends.
fn window_of(window: Option<u32>) -> u16
    ensures { result ≡ window_of window }
{
    match window {
        None => WINDOW_LEAST,
        Some(size) => size.clamp(u32::from(WINDOW_LEAST), u32::from(WINDOW_MOST)) as u16,
    }
}

/// A crypto attribute.
pub(crate) fn crypto_attribute(alloc: Global, line: &CryptoLine) -> Result<Octets, NoMemory>
    ensures { IfOk result (λ text. text ≡ crypto_attribute line.now) }
{
    let mut text = Vec::from_slice(alloc, b"a=crypto:")?;
    text.extend_from_slice(print_crypto(alloc, line)?.as_slice())?;
    Ok(Octets::from_vec(text))
}

/// The noise of the medium of this number.
pub(crate) fn noise_of(medium: u8, noise: &[u8; 304]) -> [u8; 76]
    requires { medium < 4 }
    ensures { result ≡ noise_of medium noise.now }
{
    let first = 76 * usize::from(medium);
    let mut part = [0; 76];
    part.copy_from_slice(&noise[first..first + 76]);
    part
}

/// The peer offered this line, and the gateway answers it.
pub(crate) fn keyed_by_peer_line(
    alloc: Global,
    noise: &[u8; 304],
    medium: u8,
    peer: &CryptoLine,
) -> Result<KeyedMedium, NoMemory>
    requires { medium < 4 }
    ensures { IfOk result (λ k. k ≡ keyed_by_answer peer.now (answer_by peer.now (noise_of medium noise.now))) }
{
    let own = answer_line(peer, &noise_of(medium, noise));
    let mut lines = Lines::new(alloc);
    lines.push(crypto_attribute(alloc, &own)?)?;
    Ok(KeyedMedium {
        from_peer: stream_of_line(peer, peer),
        to_peer: stream_of_line(peer, &own),
        window: window_of(peer.window),
        lines,
    })
}

/// The gateway's line, and the peer's answer to it, which is the first of the medium.
fn lines_matched(
    offered: &[CryptoLine; 2],
    answer: &Medium,
) -> Result<(CryptoLine, CryptoLine), SdesFault>
    ensures { result ≡ lines_matched offered.now (first_of (crypto_values answer.now.lines)) }
{
    match first_crypto_value(answer.lines.as_slice()) {
        None => Err(SdesFault::NoLine),
        Some(value) => match_answer(offered, value),
    }
}

fn keyed_by_matched(alloc: Global, own: &CryptoLine, peer: &CryptoLine) -> KeyedMedium
    ensures { result ≡ keyed_by_matched (own.now, peer.now) }
{
    KeyedMedium {
        from_peer: stream_of_line(peer, peer),
        to_peer: stream_of_line(peer, own),
        window: window_of(peer.window),
        lines: Lines::new(alloc),
    }
}

/// The gateway offered these lines, and the peer answers one.
pub(crate) fn keyed_by_own_lines(
    alloc: Global,
    medium: u8,
    offered: &[CryptoLine; 2],
    answer: &Medium,
) -> Result<KeyedMedium, Refusal>
    ensures { result ≡ keyed_by_own_lines medium offered.now answer.now }
{
    match lines_matched(offered, answer) {
        Ok((own, peer)) => Ok(keyed_by_matched(alloc, &own, &peer)),
        Err(fault) => Err(Refusal::Sdes { medium, fault }),
    }
}
