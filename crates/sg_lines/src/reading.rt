//! Script lines, read. What reads a signal's line isn't inlined, so that a datagram's pays for no room that it
//! doesn't need.

ghost use Rattle.std.specs.Prelude.{◌≡◌, ◌⊎◌, ◌==◌, ◌≤◌, ◌++◌, ℕ, List, [], ◌∷◌, map, take, length, IfOk, Ok};
ghost use Rattle.sg_lines.specs.Fields.{Gives, octets_from};
ghost use Rattle.sg_lines.specs.LineText.{FitsLine, line_text};
ghost use Rattle.sg_lines.specs.declared.lines.Line.{Line};
ghost use Rattle.sg_lines.specs.declared.lines.Line.TheVariants as lines;
ghost use Rattle.sg_lines.specs.LineOf.{answer_from, bye_from, datagram_at_from, datagram_from, eight_fields, fields_of, five_fields, four_fields, header_from, line_of, manual_from, more_fields, offer_mikey_from, offer_sdes_from, offer_secure_from, psk_from, reject_from, said_by, six_fields, tick_from, two_fields};

use crate::faults::WORD;
use crate::fields::{
    address, call, identity, is, key, noise, number, octets, port, rollover, window,
};
use crate::{KeptSignal, Line, ReadLineFault, Signal};
use arrayvec::ArrayVec;
use memchr::memchr;
use sg_base::{LINE_MOST, Octets, PAD_MOST, ScriptFault, TICK_MOST};
use std::alloc::Global;

/// The most octets of a session description in a script.
const TEXT_MOST: usize = 32_768;

/// One field more than a line of any word has.
const FIELDS_MOST: usize = 9;

/// The line of a signal.
fn told(alloc: Global, signal: Signal) -> Result<Line, ReadLineFault>
    ensures { Gives result (Ok (lines.Signal signal)) }
{
    Ok(Line::Signal(KeptSignal::keep(alloc, signal)?))
}

#[tactic(auto, unfolding(crate::specs::LineOf::tick_from))]
fn tick(alloc: Global, now: &[u8]) -> Result<Line, ReadLineFault>
    ensures { Gives result (tick_from now.now) }
{
    let now = number(TICK_MOST as u128, now)? as u64;
    told(alloc, Signal::Tick { now })
}

#[tactic(auto, unfolding(crate::specs::LineOf::reject_from))]
fn reject(alloc: Global, text: &[u8]) -> Result<Line, ReadLineFault>
    ensures { Gives result (reject_from text.now) }
{
    let call = call(text)?;
    told(alloc, Signal::Reject { call })
}

#[tactic(auto, unfolding(crate::specs::LineOf::bye_from))]
fn bye(alloc: Global, text: &[u8]) -> Result<Line, ReadLineFault>
    ensures { Gives result (bye_from text.now) }
{
    let call = call(text)?;
    told(alloc, Signal::Bye { call })
}

/// The octets of a datagram.
fn payload(alloc: Global, hex: &[u8]) -> Result<Octets, ReadLineFault>
    ensures { Gives result (octets_from 0 4352 hex.now) }
{
    octets(alloc, 0, PAD_MOST, hex)
}

#[tactic(auto, unfolding(crate::specs::LineOf::datagram_from))]
pub(crate) fn datagram(
    alloc: Global,
    to: &[u8],
    from: &[u8],
    hex: &[u8],
) -> Result<Line, ReadLineFault>
    ensures { Gives result (datagram_from to.now from.now hex.now) }
{
    let port = port(to)?;
    let from = address(from)?;
    let octets = payload(alloc, hex)?;
    Ok(Line::Datagram { port, from, octets })
}

#[tactic(auto, unfolding(crate::specs::LineOf::datagram_at_from))]
fn datagram_at(
    alloc: Global,
    moment: &[u8],
    to: &[u8],
    from: &[u8],
    hex: &[u8],
) -> Result<Line, ReadLineFault>
    ensures { Gives result (datagram_at_from moment.now to.now from.now hex.now) }
{
    let now = number(TICK_MOST as u128, moment)? as u64;
    let port = port(to)?;
    let from = address(from)?;
    let octets = payload(alloc, hex)?;
    Ok(Line::DatagramAt {
        now,
        port,
        from,
        octets,
    })
}

#[tactic(auto, unfolding(crate::specs::LineOf::psk_from))]
#[inline(never)]
fn psk(alloc: Global, own: &[u8], peer: &[u8], hex: &[u8]) -> Result<Line, ReadLineFault>
    ensures { Gives result (psk_from own.now peer.now hex.now) }
{
    let own = identity(own)?;
    let peer = identity(peer)?;
    let key = octets(alloc, 16, 64, hex)?;
    told(alloc, Signal::Psk { own, peer, key })
}

#[tactic(auto, unfolding(crate::specs::LineOf::offer_secure_from))]
#[inline(never)]
fn offer_secure(
    alloc: Global,
    name: &[u8],
    random: &[u8],
    hex: &[u8],
) -> Result<Line, ReadLineFault>
    ensures { Gives result (offer_secure_from name.now random.now hex.now) }
{
    let call = call(name)?;
    let noise = noise(alloc, random)?;
    let text = octets(alloc, 0, TEXT_MOST, hex)?;
    told(alloc, Signal::OfferSecure { call, noise, text })
}

#[tactic(auto, unfolding(crate::specs::LineOf::offer_sdes_from))]
#[inline(never)]
fn offer_sdes(alloc: Global, name: &[u8], random: &[u8], hex: &[u8]) -> Result<Line, ReadLineFault>
    ensures { Gives result (offer_sdes_from name.now random.now hex.now) }
{
    let call = call(name)?;
    let noise = noise(alloc, random)?;
    let text = octets(alloc, 0, TEXT_MOST, hex)?;
    told(alloc, Signal::OfferSdes { call, noise, text })
}

#[tactic(auto, unfolding(crate::specs::LineOf::offer_mikey_from))]
#[inline(never)]
fn offer_mikey(
    alloc: Global,
    name: &[u8],
    peer: &[u8],
    random: &[u8],
    hex: &[u8],
) -> Result<Line, ReadLineFault>
    ensures { Gives result (offer_mikey_from name.now peer.now random.now hex.now) }
{
    let call = call(name)?;
    let peer = identity(peer)?;
    let noise = noise(alloc, random)?;
    let text = octets(alloc, 0, TEXT_MOST, hex)?;
    told(
        alloc,
        Signal::OfferMikey {
            call,
            peer,
            noise,
            text,
        },
    )
}

#[tactic(auto, unfolding(crate::specs::LineOf::answer_from))]
#[inline(never)]
fn answer(alloc: Global, name: &[u8], random: &[u8], hex: &[u8]) -> Result<Line, ReadLineFault>
    ensures { Gives result (answer_from name.now random.now hex.now) }
{
    let call = call(name)?;
    let noise = noise(alloc, random)?;
    let text = octets(alloc, 0, TEXT_MOST, hex)?;
    told(alloc, Signal::Answer { call, noise, text })
}

#[tactic(auto, unfolding(crate::specs::LineOf::manual_from))]
#[inline(never)]
fn manual(
    alloc: Global,
    name: &[u8],
    addresses: (&[u8], &[u8]),
    roc: &[u8],
    width: &[u8],
    keys: (&[u8], &[u8]),
) -> Result<Line, ReadLineFault>
    ensures { Gives result (manual_from name.now addresses.entry.0.now addresses.entry.1.now roc.now width.now keys.entry.0.now keys.entry.1.now) }
{
    let call = call(name)?;
    let secure = address(addresses.0)?;
    let plain = address(addresses.1)?;
    let roc = rollover(alloc, roc)?;
    let window = window(width)?;
    let from_peer = key(alloc, keys.0)?;
    let to_peer = key(alloc, keys.1)?;
    if from_peer.suite().is_raw() != to_peer.suite().is_raw() {
        return Err(WORD);
    }
    told(
        alloc,
        Signal::Manual {
            call,
            secure,
            plain,
            roc,
            window,
            from_peer,
            to_peer,
        },
    )
}

#[tactic(auto, unfolding(crate::specs::LineOf::two_fields))]
fn of_two(alloc: Global, word: &[u8], a: &[u8]) -> Result<Line, ReadLineFault>
    ensures { Gives result (two_fields word.now a.now) }
{
    if is(word, b"tick") {
        return tick(alloc, a);
    }
    if is(word, b"reject") {
        return reject(alloc, a);
    }
    if is(word, b"bye") {
        return bye(alloc, a);
    }
    Err(WORD)
}

#[tactic(auto, unfolding(crate::specs::LineOf::four_fields))]
fn of_four(
    alloc: Global,
    version: u8,
    word: &[u8],
    a: &[u8],
    b: &[u8],
    c: &[u8],
) -> Result<Line, ReadLineFault>
    ensures { Gives result (four_fields version word.now a.now b.now c.now) }
{
    if is(word, b"in") && version != 2 {
        return datagram(alloc, a, b, c);
    }
    if is(word, b"psk") {
        return psk(alloc, a, b, c);
    }
    if is(word, b"offer-secure") {
        return offer_secure(alloc, a, b, c);
    }
    if is(word, b"answer") {
        return answer(alloc, a, b, c);
    }
    Err(WORD)
}

#[tactic(auto, unfolding(crate::specs::LineOf::five_fields))]
fn of_five(
    alloc: Global,
    version: u8,
    word: &[u8],
    a: &[u8],
    b: &[u8],
    c: &[u8],
    d: &[u8],
) -> Result<Line, ReadLineFault>
    ensures { Gives result (five_fields version word.now a.now b.now c.now d.now) }
{
    if is(word, b"in") && version == 2 {
        return datagram_at(alloc, a, b, c, d);
    }
    if is(word, b"offer-plain") && is(b, b"sdes") {
        return offer_sdes(alloc, a, c, d);
    }
    Err(WORD)
}

#[tactic(auto, unfolding(crate::specs::LineOf::six_fields))]
fn of_six(
    alloc: Global,
    word: &[u8],
    a: &[u8],
    b: &[u8],
    c: &[u8],
    d: &[u8],
    e: &[u8],
) -> Result<Line, ReadLineFault>
    ensures { Gives result (six_fields word.now a.now b.now c.now d.now e.now) }
{
    if is(word, b"offer-plain") && is(b, b"mikey") {
        return offer_mikey(alloc, a, c, d, e);
    }
    Err(WORD)
}

#[tactic(auto, unfolding(crate::specs::LineOf::eight_fields))]
fn of_eight(
    alloc: Global,
    word: &[u8],
    name: &[u8],
    addresses: (&[u8], &[u8]),
    roc: &[u8],
    width: &[u8],
    keys: (&[u8], &[u8]),
) -> Result<Line, ReadLineFault>
    ensures { Gives result (eight_fields word.now name.now addresses.entry.0.now addresses.entry.1.now roc.now width.now keys.entry.0.now keys.entry.1.now) }
{
    if is(word, b"manual") {
        return manual(alloc, name, addresses, roc, width, keys);
    }
    Err(WORD)
}

fn of_more(
    alloc: Global,
    version: u8,
    word: &[u8],
    a: &[u8],
    b: &[u8],
    c: &[u8],
    more: &[&[u8]],
) -> Result<Line, ReadLineFault>
    ensures { Gives result (more_fields version word.now a.now b.now c.now (map (λ x. x.now) more.now)) }
{
    match *more {
        [] => of_four(alloc, version, word, a, b, c),
        [d] => of_five(alloc, version, word, a, b, c, d),
        [d, e] => of_six(alloc, word, a, b, c, d, e),
        [d, e, f, g] => of_eight(alloc, word, a, (b, c), d, e, (f, g)),
        _ => Err(WORD),
    }
}

/// The line of its fields, the first one the word, in a script of that version.
pub(crate) fn line_of_fields(
    alloc: Global,
    version: u8,
    fields: &[&[u8]],
) -> Result<Line, ReadLineFault>
    ensures { Gives result (said_by version (map (λ x. x.now) fields.now)) }
{
    match fields {
        [word, a] => of_two(alloc, word, a),
        [word, a, b, c, more @ ..] => of_more(alloc, version, word, a, b, c, more),
        _ => Err(WORD),
    }
}

/// The first nine of what stands between single spaces.
pub fn fields(body: &[u8]) -> ArrayVec<&[u8], FIELDS_MOST>
    ensures { map (λ x. x.now) result.items ≡ take 9 (fields_of body.now) }
{
    let mut fields = ArrayVec::new();
    let mut rest = body;
    'spaces: while let Some(place) = memchr(b' ', rest) {
        if fields.is_full() {
            return fields;
        }
        fields.push(&rest[..place]);
        rest = &rest[place + 1..];
    }
    if fields.is_full() {
        return fields;
    }
    fields.push(rest);
    fields
}

/// The line without its end, where it isn't the first.
fn body_line(alloc: Global, version: u8, body: &[u8]) -> Result<Line, ReadLineFault>
    ensures { Gives result (said_by version (fields_of body.now)) }
{
    let fields = fields(body);
    line_of_fields(alloc, version, fields.as_slice())
}

/// The first line.
pub(crate) fn header(body: &[u8]) -> Result<Line, ScriptFault>
    ensures { result ≡ header_from body.now }
{
    if is(body, b"srtpgw 1") {
        return Ok(Line::Header);
    }
    if is(body, b"srtpgw 2") {
        return Ok(Line::HeaderTwo);
    }
    Err(ScriptFault::Version)
}

#[tactic(auto, unfolding(crate::specs::LineOf::line_of))]
fn line(alloc: Global, version: u8, number: u64, octets: &[u8]) -> Result<Line, ReadLineFault>
    ensures { Gives result (line_of version number octets.now) }
{
    if octets.len() > LINE_MOST {
        return Err(ReadLineFault::Script(ScriptFault::Length));
    }
    let Some((b'\n', body)) = octets.split_last() else {
        return Err(ReadLineFault::Script(ScriptFault::Unended));
    };
    if number == 1 {
        return Ok(header(body)?);
    }
    body_line(alloc, version, body)
}

/// The line that the octets are, its end among them, in a script of version 1 or 2. Lines are numbered from 1, and
/// the first one is the header of either version, whatever the version is. A line's first fault is Length above
/// 70,000 octets, Unended without a line end, Version where the first line is no header, Word for an unknown word or
/// another number of fields than it has in that version, and then that of the first field from the left; the rule on
/// the two keys of a manual call comes last.
pub fn read_line(
    alloc: Global,
    version: u8,
    number: u64,
    octets: &[u8],
) -> Result<Line, ReadLineFault>
    requires { (version ≡ 1) ⊎ (version ≡ 2) }
    ensures exact { Gives result (line_of version number octets.now) }
    // What is read is spelled so.
    ensures found { IfOk result (λ l. FitsLine version number l × (octets.now ≡ line_text l)) }
    // What is spelled so is read, unless out of memory.
    ensures only { (l : Line) → FitsLine version number l → octets.now ≡ line_text l → Gives result (Ok l) }
{
    line(alloc, version, number, octets)
}
