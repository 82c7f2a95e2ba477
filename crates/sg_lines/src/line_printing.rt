//! Script lines, printed.

ghost use Rattle.std.specs.Prelude.{◌≡◌, ◌<◌, ◌∷◌, ◌++◌, [], map, length, decimal, IfOk};
ghost use Rattle.std.specs.List.{join_with_byte};
ghost use Rattle.sg_base.specs.Fields.{address_text};
ghost use Rattle.sg_lines.specs.LineText.{hex_text, key_text, line_fields, line_text, noise_text, rollover_text, signal_fields};

use crate::field_printing::{push_address, push_hex};
use crate::{Line, Signal};
use itoa::Buffer;
use sg_base::{Address, CallId, MasterKey, NoMemory, Noise304, Octets};
use std::alloc::Global;

/// The fields joined by single spaces, and the line end.
fn joined(alloc: Global, fields: &[&[u8]]) -> Result<Octets, NoMemory>
    requires { 0 < length fields.now }
    ensures { IfOk result (λ o. o ≡ join_with_byte 32 (map (λ x. x.now) fields.now) ++ 10 ∷ []) }
{
    let last = fields[fields.len() - 1];
    let mut out = Vec::new(alloc);
    for field in &fields[..fields.len() - 1] {
        out.extend_from_slice(field)?;
        out.push(b' ')?;
    }
    out.extend_from_slice(last)?;
    out.push(b'\n')?;
    Ok(Octets::from_vec(out))
}

fn hex_of(alloc: Global, octets: &[u8]) -> Result<Vec<u8>, NoMemory>
    ensures { IfOk result (λ v. v.items ≡ hex_text octets.now) }
{
    let mut text = Vec::new(alloc);
    push_hex(&mut text, octets)?;
    Ok(text)
}

fn address_of(alloc: Global, a: &Address) -> Result<Vec<u8>, NoMemory>
    ensures { IfOk result (λ v. v.items ≡ address_text a.now) }
{
    let mut text = Vec::new(alloc);
    push_address(&mut text, a)?;
    Ok(text)
}

fn rollover_of(alloc: Global, roc: u32) -> Result<Vec<u8>, NoMemory>
    ensures { IfOk result (λ v. v.items ≡ rollover_text roc) }
{
    Ok(hex::encode(alloc, roc.to_be_bytes())?.into_bytes())
}

fn noise_of(alloc: Global, noise: &Option<Noise304>) -> Result<Vec<u8>, NoMemory>
    ensures { IfOk result (λ v. v.items ≡ noise_text noise.now) }
{
    match noise {
        None => Ok(Vec::from_slice(alloc, b"-")?),
        Some(noise) => hex_of(alloc, &noise.0),
    }
}

fn key_of(alloc: Global, key: &MasterKey) -> Result<Vec<u8>, NoMemory>
    ensures { IfOk result (λ v. v.items ≡ key_text key.now) }
{
    let mut octets = Vec::from_slice(alloc, key.key())?;
    octets.extend_from_slice(key.salt())?;
    let mut text = Vec::from_slice(alloc, key.suite().name())?;
    text.extend_from_slice(b":")?;
    push_hex(&mut text, &octets)?;
    Ok(text)
}

/// The fields of an offer or an answer: its words before the noise, the noise and the text.
fn print_text(
    alloc: Global,
    word: &[u8],
    call: CallId,
    noise: &Option<Noise304>,
    text: &Octets,
) -> Result<Octets, NoMemory>
    ensures { IfOk result (λ o. o ≡ join_with_byte 32 (word.now ∷ decimal call.0 ∷ noise_text noise.now ∷ hex_text text.now ∷ []) ++ 10 ∷ []) }
{
    let mut number = Buffer::new();
    let call = number.format(call.0).as_bytes();
    let noise = noise_of(alloc, noise)?;
    let text = hex_of(alloc, text.as_slice())?;
    joined(alloc, &[word, call, &noise, &text])
}

fn print_signal(alloc: Global, signal: &Signal) -> Result<Octets, NoMemory>
    ensures { IfOk result (λ o. o ≡ join_with_byte 32 (signal_fields signal.now) ++ 10 ∷ []) }
{
    let mut number = Buffer::new();
    let mut width = Buffer::new();
    match signal {
        Signal::Tick { now } => joined(alloc, &[b"tick", number.format(*now).as_bytes()]),
        Signal::Psk { own, peer, key } => {
            let key = hex_of(alloc, key.as_slice())?;
            joined(alloc, &[b"psk", own.as_slice(), peer.as_slice(), &key])
        }
        Signal::Manual {
            call,
            secure,
            plain,
            roc,
            window,
            from_peer,
            to_peer,
        } => {
            let call = number.format(call.0).as_bytes();
            let secure = address_of(alloc, secure)?;
            let plain = address_of(alloc, plain)?;
            let roc = rollover_of(alloc, *roc)?;
            let window = width.format(*window).as_bytes();
            let from_peer = key_of(alloc, from_peer)?;
            let to_peer = key_of(alloc, to_peer)?;
            joined(
                alloc,
                &[
                    b"manual", call, &secure, &plain, &roc, window, &from_peer, &to_peer,
                ],
            )
        }
        Signal::OfferSecure { call, noise, text } => {
            print_text(alloc, b"offer-secure", *call, noise, text)
        }
        Signal::OfferSdes { call, noise, text } => {
            let call = number.format(call.0).as_bytes();
            let noise = noise_of(alloc, noise)?;
            let text = hex_of(alloc, text.as_slice())?;
            joined(alloc, &[b"offer-plain", call, b"sdes", &noise, &text])
        }
        Signal::OfferMikey {
            call,
            peer,
            noise,
            text,
        } => {
            let call = number.format(call.0).as_bytes();
            let noise = noise_of(alloc, noise)?;
            let text = hex_of(alloc, text.as_slice())?;
            joined(
                alloc,
                &[
                    b"offer-plain",
                    call,
                    b"mikey",
                    peer.as_slice(),
                    &noise,
                    &text,
                ],
            )
        }
        Signal::Answer { call, noise, text } => print_text(alloc, b"answer", *call, noise, text),
        Signal::Reject { call } => { joined(alloc, &[b"reject", number.format(call.0).as_bytes()]) }
        Signal::Bye { call } => joined(alloc, &[b"bye", number.format(call.0).as_bytes()]),
    }
}

/// The line, with its end.
pub fn print_line(alloc: Global, line: &Line) -> Result<Octets, NoMemory>
    ensures { IfOk result (λ o. o ≡ line_text line.now) }
{
    match line {
        Line::Header => Ok(Octets::copy_of(alloc, b"srtpgw 1\n")?),
        Line::HeaderTwo => Ok(Octets::copy_of(alloc, b"srtpgw 2\n")?),
        Line::Datagram { port, from, octets } => {
            let mut number = Buffer::new();
            let port = number.format(*port).as_bytes();
            let from = address_of(alloc, from)?;
            let octets = hex_of(alloc, octets.as_slice())?;
            joined(alloc, &[b"in", port, &from, &octets])
        }
        Line::DatagramAt {
            now,
            port,
            from,
            octets,
        } => {
            let mut moment = Buffer::new();
            let now = moment.format(*now).as_bytes();
            let mut number = Buffer::new();
            let port = number.format(*port).as_bytes();
            let from = address_of(alloc, from)?;
            let octets = hex_of(alloc, octets.as_slice())?;
            joined(alloc, &[b"in", now, port, &from, &octets])
        }
        Line::Signal(kept) => print_signal(alloc, kept.signal()),
    }
}
