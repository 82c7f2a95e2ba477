//! Keys into the ring, all or none, and the specs of their sessions.

ghost use Rattle.std.specs.Prelude.{◌≡◌, ◌≤◌, ◌<◌, ◌++◌, ◌+◌, ℕ, List, [], ◌∷◌, Some, Ok, Err, length, map, vec_len, vec_capacity, All, IfOk, OnOk, OnErr};
ghost use Rattle.sg_agreement.specs.Generations.{sessions_from};
ghost use Rattle.sg_agreement.specs.Streams.{line_key};
ghost use Rattle.sg_keys.specs.Installing.{keys_of};
ghost use Rattle.sg_keys.specs.Reused.{given};
ghost use Rattle.sg_session.specs.Ring as ring;
ghost use Rattle.sg_session.specs.Ring.{Installed};
ghost use Rattle.sg_leg.specs.FreshKeys.{media_keys, ring_keys};
ghost use Rattle.sg_leg.specs.Installing.{IsKeyed, IsInstalled, fault_of, plan_of};
ghost use Rattle.sg_leg.specs.Planned.{ArePlanned, IsNext, planned_sides};
ghost use Rattle.sg_leg.specs.Served.{IsServedIf, IsServedMedium};

use crate::media::AgreedMedium;
use crate::{MEDIUM_SIDES, SideSpec};
use sg_base::{Fault, MEDIA_MOST, MasterKey, NoMemory, Refusal, SessionKeys};
use sg_keys::{Ring, RingFault};
use sg_sdes::InlineKey;
use std::alloc::Global;

/// A master key with its session keys.
type Derived = (MasterKey, SessionKeys);

/// What is ready to come into use.
#[derive(Drop)]
struct Prepared {
    keys: Vec<Derived>,
    sides: Vec<SideSpec>,
}

fn derived(master: &MasterKey) -> Derived
    ensures { given result ≡ ring.derived master.now }
{
    (master.clone(), sg_kdf::derive(master))
}

/// Adds keys that come into use.
fn add_keys(keys: &[InlineKey], out: &mut Vec<Derived>) -> Result<(), NoMemory>
    ensures given { OnOk result (map given out.new.items ≡ map given out.old.items ++ ring_keys (map line_key keys.now)) }
    ensures count { OnOk result (vec_len out.new ≡ vec_len out.old + length (map line_key keys.now)) }
{
    for key in keys {
        out.push(derived(&key.key))?;
    }
    Ok(())
}

/// Adds the keys of a medium, the peer's before the gateway's.
fn add_medium_keys(medium: &AgreedMedium, out: &mut Vec<Derived>) -> Result<(), NoMemory>
    ensures given { OnOk result (map given out.new.items ≡ map given out.old.items ++ media_keys (Some medium.now ∷ [])) }
    ensures count { OnOk result (vec_len out.new ≡ vec_len out.old + length medium.now.from_peer.keys + length medium.now.to_peer.keys) }
{
    add_keys(medium.from_peer.keys.as_slice(), out)?;
    add_keys(medium.to_peer.keys.as_slice(), out)?;
    Ok(())
}

/// Adds the keys of a medium and what its sides are made of.
fn add_medium(
    medium: &AgreedMedium,
    m: u8,
    first: u32,
    keys: &mut Vec<Derived>,
    sides: &mut Vec<SideSpec>,
) -> Result<(), NoMemory>
    requires served { IsServedMedium medium.now }
    requires first { first ≤ 65536 }
    requires few { vec_len keys.old ≤ 48 }
    requires room { vec_len sides.old + 4 ≤ vec_capacity sides.old }
    ensures given { OnOk result (map given keys.new.items ≡ map given keys.old.items ++ media_keys (Some medium.now ∷ [])) }
    ensures next { OnOk result (IsNext m first (Some medium.now) (planned_sides sides.old.items) (vec_len keys.old) (planned_sides sides.new.items) (vec_len keys.new)) }
    ensures few { OnOk result (vec_len keys.new ≤ vec_len keys.old + 16) }
    ensures four { OnOk result (vec_len sides.new ≤ vec_len sides.old + 4) }
    ensures capacity { OnOk result (vec_capacity sides.new ≡ vec_capacity sides.old) }
{
    medium.add_sides(m, first + keys.len() as u32, sides);
    add_medium_keys(medium, keys)?;
    Ok(())
}

/// The same of a medium that may be idle; nothing is added then.
fn add(
    medium: &Option<AgreedMedium>,
    m: u8,
    first: u32,
    keys: &mut Vec<Derived>,
    sides: &mut Vec<SideSpec>,
) -> Result<(), NoMemory>
    requires served { IsServedIf medium.now }
    requires first { first ≤ 65536 }
    requires few { vec_len keys.old ≤ 48 }
    requires room { vec_len sides.old + 4 ≤ vec_capacity sides.old }
    ensures given { OnOk result (map given keys.new.items ≡ map given keys.old.items ++ media_keys (medium.now ∷ [])) }
    ensures next { OnOk result (IsNext m first medium.now (planned_sides sides.old.items) (vec_len keys.old) (planned_sides sides.new.items) (vec_len keys.new)) }
    ensures few { OnOk result (vec_len keys.new ≤ vec_len keys.old + 16) }
    ensures four { OnOk result (vec_len sides.new ≤ vec_len sides.old + 4) }
    ensures capacity { OnOk result (vec_capacity sides.new ≡ vec_capacity sides.old) }
{
    match medium {
        None => Ok(()),
        Some(medium) => add_medium(medium, m, first, keys, sides),
    }
}

/// The keys of media and what their sides are made of, where the first key has this number.
fn prepare(alloc: Global, media: &[Option<AgreedMedium>], first: u32) -> Result<Prepared, NoMemory>
    requires few { length media.now ≤ 4 }
    requires first { first ≤ 65536 }
    requires served { All IsServedIf media.now }
    ensures given { IfOk result (λ p. map given p.keys.items ≡ media_keys media.now) }
    ensures few { IfOk result (λ p. length p.keys.items ≤ 65536) }
    ensures four { IfOk result (λ p. length p.sides.items ≤ 16) }
    ensures planned { IfOk result (λ p. (call generation : ℕ) → ArePlanned (planned_sides p.sides.items) (sessions_from call generation 0 first media.now)) }
{
    let mut keys = Vec::new(alloc);
    let mut sides = Vec::with_capacity(alloc, MEDIA_MOST * MEDIUM_SIDES)?;
    for (m, medium) in media.iter().enumerate() {
        add(medium, m as u8, first, &mut keys, &mut sides)?;
    }
    Ok(Prepared { keys, sides })
}

/// The fault of keys that the ring doesn't take in.
fn fault_of(fault: RingFault) -> Fault
    ensures { result ≡ fault_of fault }
{
    match fault {
        RingFault::KeyReused { number } => Fault::Refused(Refusal::KeyReused { number }),
        RingFault::RingFull => Fault::Refused(Refusal::RingFull),
        RingFault::NoMemory => Fault::NoMemory,
    }
}

/// Takes keys into the ring, all or none, or tells why not.
fn install(ring: &mut Ring, keys: &[Derived]) -> Result<(), Fault>
    requires few { length keys.now ≤ 65536 }
    ensures installs { (old new : List Installed) → keys_of old ≡ ring.old → keys_of new ≡ map given keys.now
        → IsInstalled old new result }
    ensures ok { OnOk result (ring.new ≡ ring.old ++ map given keys.now) }
    ensures err { OnErr result (ring.new ≡ ring.old) }
{
    match ring.install_all(keys) {
        Ok(_first) => Ok(()),
        Err(fault) => Err(fault_of(fault)),
    }
}

/// Puts the keys of media into the ring, all or none, and tells what their sides are made of.
pub(crate) fn settle(
    alloc: Global,
    media: &[Option<AgreedMedium>],
    ring: &mut Ring,
) -> Result<Vec<SideSpec>, Fault>
    requires few { length media.now ≤ 4 }
    requires served { All IsServedIf media.now }
    ensures keyed { (call generation : ℕ) (old : List Installed) → keys_of old ≡ ring.old
        → IsKeyed call generation old media.now (plan_of result) ring.new }
    ensures few { IfOk result (λ sides. length sides.items ≤ 16) }
    ensures err { OnErr result (ring.new ≡ ring.old) }
{
    let Ok(prepared) = prepare(alloc, media, ring.count()) else {
        return Err(Fault::NoMemory);
    };
    match install(ring, &prepared.keys) {
        Ok(()) => Ok(prepared.sides),
        Err(fault) => Err(fault),
    }
}

/// The same of one medium.
pub(crate) fn settle_one(
    alloc: Global,
    medium: &AgreedMedium,
    ring: &mut Ring,
) -> Result<Vec<SideSpec>, Fault>
    requires served { IsServedMedium medium.now }
    ensures keyed { (call generation : ℕ) (old : List Installed) → keys_of old ≡ ring.old
        → IsKeyed call generation old (Some medium.now ∷ []) (plan_of result) ring.new }
    ensures few { IfOk result (λ sides. length sides.items ≤ 4) }
    ensures err { OnErr result (ring.new ≡ ring.old) }
{
    let mut keys = Vec::new(alloc);
    let Ok(()) = add_medium_keys(medium, &mut keys) else {
        return Err(Fault::NoMemory);
    };
    let Ok(mut sides) = Vec::with_capacity(alloc, MEDIUM_SIDES) else {
        return Err(Fault::NoMemory);
    };
    medium.add_sides(0, ring.count(), &mut sides);
    match install(ring, &keys) {
        Ok(()) => Ok(sides),
        Err(fault) => Err(fault),
    }
}
