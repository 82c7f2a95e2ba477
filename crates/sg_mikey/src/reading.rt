//! A message, read from its first octet on.

ghost use Rattle.std.specs.Prelude.{◌≡◌, ◌+◌, ◌<◌, ◌^◌, IfOk, Ok, length};
ghost use Rattle.sg_mikey.specs.declared.chain.Stage.TheVariants.{BeforeTime};
ghost use Rattle.sg_mikey.specs.Reading.{Gives, Answers, chain_at, entry_at, entries_at, header_at, whole_at, message_of};
ghost use Rattle.sg_mikey.specs.Spelling.{IsMessage, message_octets};

use crate::chain::Stage;
use crate::faults::Halt;
use crate::fields::{
    cut, halt, read_four, read_next, read_octet, read_up_to, read_verify_bit, read_version,
};
use crate::message::Header;
use crate::payloads::read_payload;
use crate::{CsEntry, Items, Message, Payload, ReadMikeyFault};
use sg_base::MikeyFault;
use std::alloc::Global;

// The payloads of a message of this kind, of which the first has this number.
fn read_chain(
    alloc: Global,
    octets: &[u8],
    kind: u8,
    first: u8,
) -> Result<(Items<Payload>, &[u8]), Halt>
    ensures { Gives (λ x. (x.0, x.1.now)) result
        (chain_at (length octets.now + 1) kind BeforeTime first octets.now) }
{
    let mut payloads = Vec::new(alloc);
    let mut rest = octets;
    let mut stage = Stage::BeforeTime;
    let mut next = first;
    for _ in 0..octets.len() + 1 {
        if stage.ends_at(next) {
            return Ok((Items::from_vec(payloads), rest));
        }
        let Some(behind) = stage.behind(kind, next) else {
            return Err(halt(rest, MikeyFault::Order));
        };
        let (payload, number, after) = read_payload(alloc, rest, next)?;
        payloads.push(payload)?;
        stage = behind;
        next = number;
        rest = after;
    }
    Err(cut())
}

// A crypto session (RFC 3830, 6.1.1):
//
//   | policy number: 8 | SSRC: 32 | ROC: 32 |
#[tactic(auto, unfolding(crate::specs::Reading::entry_at))]
fn read_entry(octets: &[u8]) -> Result<(CsEntry, &[u8]), Halt>
    ensures { Gives (λ x. (x.0, x.1.now)) result (entry_at octets.now) }
{
    let (policy, rest) = read_octet(octets)?;
    let (ssrc, rest) = read_four(rest)?;
    let (roc, rest) = read_four(rest)?;
    Ok((CsEntry { policy, ssrc, roc }, rest))
}

// The map of so many crypto sessions.
fn read_entries(alloc: Global, octets: &[u8], count: u8) -> Result<(Items<CsEntry>, &[u8]), Halt>
    ensures { Gives (λ x. (x.0, x.1.now)) result (entries_at count octets.now) }
{
    let mut entries = Vec::new(alloc);
    let mut rest = octets;
    for _ in 0..count {
        let (entry, behind) = read_entry(rest)?;
        entries.push(entry)?;
        rest = behind;
    }
    Ok((Items::from_vec(entries), rest))
}

// Common header (RFC 3830, 6.1), up to the map:
//
//   | version: 8 | data type: 8 | next payload: 8 | V: 1 | PRF: 7 |
//   | CSB ID: 32 | number of crypto sessions: 8 | map type: 8 |
#[tactic(auto, unfolding(crate::specs::Reading::header_at))]
fn read_header(octets: &[u8]) -> Result<(Header, &[u8]), Halt>
    ensures { Gives (λ x. (x.0, x.1.now)) result (header_at octets.now) }
{
    let (_, rest) = read_version(octets)?;
    let (kind, rest) = read_up_to(rest, 1, MikeyFault::DataType)?;
    let (next, rest) = read_next(rest)?;
    let (verify, rest) = read_verify_bit(rest)?;
    let (csb, rest) = read_four(rest)?;
    let (count, rest) = read_octet(rest)?;
    let (_, rest) = read_up_to(rest, 0, MikeyFault::Value)?;
    let header = Header {
        kind,
        next,
        verify,
        csb,
        count,
    };
    Ok((header, rest))
}

// All octets.
#[tactic(auto, unfolding(crate::specs::Reading::whole_at))]
fn read_whole(alloc: Global, octets: &[u8]) -> Result<Message, Halt>
    ensures { Gives (λ m. m) result (whole_at octets.now) }
{
    let (header, rest) = read_header(octets)?;
    let (map, rest) = read_entries(alloc, rest, header.count)?;
    let (payloads, rest) = read_chain(alloc, rest, header.kind, header.next)?;
    if !rest.is_empty() {
        return Err(halt(rest, MikeyFault::Trailing));
    }
    Ok(Message {
        kind: header.kind,
        verify: header.verify,
        csb: header.csb,
        map,
        payloads,
    })
}

/// The message that the octets spell, all of the octets.
///
/// Of several faults the one with the least offset is told, which is that of the first octet of the
/// field that shows it, and for `Cut` the octets' number. A payload in a wrong place is `Order` where it
/// would begin, also where the octets end there.
pub fn read(alloc: Global, octets: &[u8]) -> Result<Message, ReadMikeyFault>
    requires { length octets.now < 2 ^ 32 }

    // What is read is a message, and is spelled so.
    ensures found { IfOk result (λ m. IsMessage m × (octets.now ≡ message_octets m)) }

    // What a message is spelled as is read as that message, unless out of memory.
    ensures only { (m : Message) → IsMessage m → octets.now ≡ message_octets m → Answers result (Ok m) }

    // Which fault it is, and where.
    ensures first_fault { Answers result (message_of octets.now) }
{
    match read_whole(alloc, octets) {
        Ok(message) => Ok(message),
        Err(Halt::NoMemory) => Err(ReadMikeyFault::NoMemory),
        Err(Halt::At(stop)) => Err(ReadMikeyFault::Mikey {
            offset: octets.len().saturating_sub(stop.left) as u32,
            fault: stop.fault,
        }),
    }
}
