//! What each side sends in the crypto sessions of a bundle (RFC 3830, 4.1.3 and 6.1.1).

ghost use Rattle.std.specs.Prelude.{◌≡◌, ◌≤◌, ◌<◌, ◌∷◌, length, None, option_map, IfOk, IfSome, IfNone};
ghost use Rattle.std.specs.List.{list_any};
ghost use Rattle.sg_base.specs.Suites.{salt_len_of};
ghost use Rattle.sg_base.specs.declared.faults.CsFault.TheVariants.{PolicyValue};
ghost use Rattle.sg_csmap.specs.CryptoSessions.{Gives, GivesList, OnNoMemory, early_of, keys_in, lacks_policy, master_in, or_fault, pair_in, pairs_from, policy_at, stream_in, stream_keys, streams_of};

use crate::CsError;
use crate::policies::{Protection, protection_of};
use sg_base::{CsFault, MasterKey, Mki, NoMemory, Suite};
use sg_hmac::labelled_key;
use sg_mikey::{CsEntry, Items, Policy, Tgk, Tgks};
use std::alloc::Global;

/// The constant of a traffic encryption key's label (RFC 3830, 4.1.3).
const TRAFFIC_KEY: u32 = 0x2ad01c64;

/// The constant of a salting key's label (RFC 3830, 4.1.3).
const TRAFFIC_SALT: u32 = 0x39a2c14b;

/// What one side sends in a crypto session: its suite, its master keys with their MKIs, its SSRC, which is
/// 0 where it isn't known, its rollover counter, and whether RTP and RTCP are sent unencrypted.
#[derive(Drop)]
pub struct StreamKeys {
    pub suite: Suite,
    pub keys: Items<(Option<Mki>, MasterKey)>,
    pub ssrc: u32,
    pub roc: u32,
    pub plain_rtp: bool,
    pub plain_rtcp: bool,
}

// The first policy of an entry's number.
fn policy_at<'a>(policies: &'a [Policy], entry: &CsEntry) -> Option<&'a Policy>
    ensures { option_map (λ p. p.now) result ≡ policy_at policies.now entry.now }
{
    policies.iter().find(|policy| policy.number == entry.policy)
}

fn lacks_policy(policies: &[Policy], entry: &CsEntry) -> bool
    ensures { result ≡ lacks_policy policies.now entry.now }
{
    policy_at(policies, entry).is_none()
}

fn lack_policies(policies: &[Policy], map: &[CsEntry]) -> bool
    ensures { result ≡ list_any (lacks_policy policies.now) map.now }
{
    map.iter().any(|entry| lacks_policy(policies, entry))
}

// The master key that a TGK gives in a crypto session.
fn master_key(csb: u32, random: &[u8], session: u8, suite: Suite, tgk: &[u8]) -> MasterKey
    requires { salt_len_of suite ≡ 14 }
    ensures { result ≡ master_in csb random.now session suite tgk.now }
{
    let mut octets = [0; 46];
    let count = suite.key_len();
    labelled_key(tgk, TRAFFIC_KEY, session, csb, random, &mut octets[..count]);
    labelled_key(
        tgk,
        TRAFFIC_SALT,
        session,
        csb,
        random,
        &mut octets[count..count + 14],
    );
    match MasterKey::new(suite, &octets[..count + 14]) {
        Some(master) => master,
        None => unreachable!(),
    }
}

// The master keys that all TGKs give, with their MKIs.
fn keys_in(
    alloc: Global,
    csb: u32,
    random: &[u8],
    session: u8,
    suite: Suite,
    tgks: &[Tgk],
) -> Result<Items<(Option<Mki>, MasterKey)>, NoMemory>
    requires { salt_len_of suite ≡ 14 }
    ensures { IfOk result (λ keys. keys ≡ keys_in csb random.now session suite tgks.now) }
{
    let mut keys = Vec::new(alloc);
    let mut rest = tgks;
    while let [tgk, others @ ..] = rest {
        let master = master_key(csb, random, session, suite, tgk.key.as_slice());
        keys.push((tgk.spi, master))?;
        rest = others;
    }
    Ok(Items::from_vec(keys))
}

// What is sent in the crypto session of an entry, under the policy that it names.
#[tactic(auto, unfolding(crate::specs::CryptoSessions::stream_in))]
fn stream_in(
    alloc: Global,
    csb: u32,
    random: &[u8],
    policies: &[Policy],
    tgks: &[Tgk],
    session: u8,
    entry: &CsEntry,
) -> Result<StreamKeys, CsError>
    ensures { Gives result (or_fault PolicyValue (stream_in csb random.now policies.now tgks.now session entry.now)) }
{
    let Some(policy) = policy_at(policies, entry) else {
        return Err(CsError::Cs(CsFault::PolicyValue));
    };
    let Some(protection) = protection_of(policy) else {
        return Err(CsError::Cs(CsFault::PolicyValue));
    };
    Ok(StreamKeys {
        suite: protection.suite,
        keys: keys_in(alloc, csb, random, session, protection.suite, tgks)?,
        ssrc: entry.ssrc,
        roc: entry.roc,
        plain_rtp: protection.plain_rtp,
        plain_rtcp: protection.plain_rtcp,
    })
}

// What both sides send in the two crypto sessions of a medium, of which the first has this number.
#[tactic(auto, unfolding(crate::specs::CryptoSessions::pair_in))]
fn pair_in(
    alloc: Global,
    csb: u32,
    random: &[u8],
    policies: &[Policy],
    tgks: &[Tgk],
    session: u8,
    two: (&CsEntry, &CsEntry),
) -> Result<(StreamKeys, StreamKeys), CsError>
    requires { session < 255 }
    ensures { Gives result (or_fault PolicyValue
        (pair_in csb random.now policies.now tgks.now session two.entry.0.now two.entry.1.now)) }
{
    let initiator = match stream_in(alloc, csb, random, policies, tgks, session, two.0) {
        Ok(stream) => stream,
        Err(error) => return Err(error),
    };
    match stream_in(alloc, csb, random, policies, tgks, session + 1, two.1) {
        Ok(responder) => Ok((initiator, responder)),
        Err(error) => Err(error),
    }
}

// The first two crypto sessions, and the others.
fn two_of(map: &[CsEntry]) -> Option<(&CsEntry, &CsEntry, &[CsEntry])>
    ensures some { IfSome result (λ two. map.now ≡ two.0.now ∷ two.1.now ∷ two.2.now) }
    ensures none { IfNone result (length map.now < 2) }
{
    match map {
        [first, second, others @ ..] => Some((first, second, others)),
        _ => None,
    }
}

// The crypto sessions from 1 on, by two.
#[tactic(auto, unfolding(crate::specs::CryptoSessions::pairs_from))]
fn pairs_of(
    alloc: Global,
    csb: u32,
    random: &[u8],
    policies: &[Policy],
    tgks: &[Tgk],
    map: &[CsEntry],
) -> Result<Vec<(StreamKeys, StreamKeys)>, CsError>
    requires { length map.now ≤ 254 }
    ensures { GivesList result (or_fault PolicyValue (pairs_from csb random.now policies.now tgks.now 1 map.now)) }
{
    let mut pairs = Vec::new(alloc);
    let mut rest = map;
    let mut session = 1;
    'media: while let Some((first, second, others)) = two_of(rest) {
        match pair_in(alloc, csb, random, policies, tgks, session, (first, second)) {
            Ok(pair) => pairs.push(pair)?,
            Err(error) => return Err(error),
        }
        session += 2;
        rest = others;
    }
    Ok(pairs)
}

/// What the initiator sends and what the responder sends in each of so many media, by their crypto
/// sessions: medium k, from 1 on, has the sessions `2k - 1` and `2k`.
///
/// Refused, in this order: `CsCount` for another number of crypto sessions than two for each medium;
/// `PolicyMissing` for a session whose policy no SP has; `PolicyValue` for one whose policy says what isn't
/// served. The first two need no memory.
#[tactic(auto, using(crate::proofs::Loops::anyway), unfolding(crate::specs::CryptoSessions::streams_of))]
pub fn streams(
    alloc: Global,
    csb: u32,
    random: &[u8],
    map: &[CsEntry],
    policies: &[Policy],
    tgks: &Tgks,
    media: usize,
) -> Result<Vec<(StreamKeys, StreamKeys)>, CsError>
    requires { media ≤ 127 }
    ensures value { GivesList result (streams_of csb random.now map.now policies.now tgks.now.keys media) }
    ensures needs { OnNoMemory result (early_of map.now policies.now media ≡ None) }
{
    if map.len() != 2 * media {
        return Err(CsError::Cs(CsFault::CsCount));
    }
    if lack_policies(policies, map) {
        return Err(CsError::Cs(CsFault::PolicyMissing));
    }
    pairs_of(alloc, csb, random, policies, tgks.keys.as_slice(), map)
}
