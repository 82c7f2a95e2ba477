//! An index of the ring's keys by the octets of one part.

ghost use Rattle.std.specs.Prelude.{◌≡◌, ◌+◌, ◌<◌, ◌≤◌, if◌then◌else◌, ℕ, List, [], length, drop, Option, Some, None, IfSome, OnOk, OnErr};
ghost use Rattle.std.specs.BTreeMap.{IsEmpty};
ghost use Rattle.sg_base.specs.Octets.{same_octets};
ghost use Rattle.sg_keys.specs.Indexed.{octets_of, first_with, at_octets, IsIndexOf};
ghost use Rattle.std.specs.Option.{option_or};

use crate::installed_key::InstalledKey;
use crate::part::Part;
use sg_base::NoMemory;
use std::alloc::Global;
use std::collections::BTreeMap;

/// From the octets of one part to the least number of a key that has them, among the first keys of a
/// list, as many as it counts. It may lag behind the list: the others are searched one by one.
#[derive(Drop)]
pub struct Index {
    part: Part,
    count: usize,
    numbers: BTreeMap<Vec<u8>, usize>,
    alloc: Global,
}

// The number that these octets have.
fn number_of(numbers: &BTreeMap<Vec<u8>, usize>, octets: &[u8]) -> Option<usize>
    ensures { result ≡ at_octets numbers.now octets.now }
{
    numbers.get(octets).copied()
}

// The octets get the number where they have none.
fn keep_first(
    numbers: &mut BTreeMap<Vec<u8>, usize>,
    octets: &[u8],
    number: usize,
    alloc: Global,
) -> Result<(), NoMemory>
    ensures ok { OnOk result ((any : List ℕ) → at_octets numbers.new any
        ≡ option_or (at_octets numbers.old any) (if same_octets octets.now any then Some number else None)) }
    ensures err { OnErr result ((any : List ℕ) → at_octets numbers.new any ≡ at_octets numbers.old any) }
{
    if number_of(numbers, octets).is_some() {
        return Ok(());
    }
    let Ok(octets) = Vec::from_slice(alloc, octets) else {
        return Err(NoMemory);
    };
    match numbers.insert(octets, number) {
        Ok(_) => Ok(()),
        Err(_) => Err(NoMemory),
    }
}

// The first of the keys, from `start` on, whose part has these octets.
fn first_behind(part: Part, octets: &[u8], list: &[InstalledKey], start: usize) -> Option<usize>
    requires { start ≤ length list.now }
    ensures first { result ≡ first_with part octets.now start (drop start list.now) }
    ensures within { IfSome result (λ n. n < length list.now) }
{
    for i in start..list.len() {
        if list[i].has(part, octets) {
            return Some(i);
        }
    }
    None
}

impl Index {
    /// An index of a list without a key.
    pub fn make(part: Part, alloc: Global) -> Index
        ensures { IsIndexOf part result [] }
    {
        Index {
            part,
            count: 0,
            numbers: BTreeMap::new(alloc),
            alloc,
        }
    }

    /// The least number of a key of the list whose part has these octets.
    pub fn find(&self, octets: &[u8], list: &[InstalledKey]) -> Option<usize>
        requires { IsIndexOf self.now.part self.now list.now }
        ensures { result ≡ first_with self.now.part octets.now 0 list.now }
    {
        match number_of(&self.numbers, octets) {
            Some(number) => Some(number),
            None => first_behind(self.part, octets, list, self.count),
        }
    }

    /// Takes in the keys of the list that it lacks, as far as there is memory.
    pub fn extend(&mut self, list: &[InstalledKey])
        requires { IsIndexOf self.old.part self.old list.now }
        ensures { IsIndexOf self.old.part self.new list.now }
    {
        for i in self.count..list.len() {
            let octets = list[i].part(self.part);
            if keep_first(&mut self.numbers, octets, i, self.alloc).is_err() {
                return;
            }
            self.count = i + 1;
        }
    }
}
