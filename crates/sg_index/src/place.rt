//! The place of a stream: its highest index, and what a packet's number says next to it (RFC 3711, 3.3.1).

ghost use Rattle.std.specs.Prelude.{◌≡◌, ℕ, ◌+◌, ◌*◌, ◌<◌, ◌^◌, ◌↔◌, max, Ok};
ghost use Rattle.sg_index.specs.Nearest.{nearest_index, IsNearest, IsBeforeFirst, IsSpent};

use sg_base::IndexFault;
use std::marker::Model;

// How many numbers a rollover has.
const TURN: u64 = 65536;

// Half a turn.
const HALF: u16 = 32768;

/// The highest index of a stream, kept as its rollover and its number.
#[derive(Drop)]
pub struct Place {
    rollover: u32,
    number: u16,
}

impl Model for Place {
    ghost use Rattle.std.specs.Prelude.{ℕ, ◌+◌, ◌*◌};

    ghost Value = { ℕ };

    ghost view = { λ p. p.rollover * 65536 + p.number };
}

impl Place {
    /// The place of a stream whose highest index has this rollover and this number.
    pub fn start(roc: u32, seq: u16) -> Place
        ensures { result ≡ roc * 65536 + seq }
    {
        Place {
            rollover: roc,
            number: seq,
        }
    }

    /// The highest index, which is below 2^48.
    pub fn highest(&self) -> u64
        ensures same { result ≡ self.now }
        ensures bound { self.now < 2 ^ 48 }
    {
        u64::from(self.rollover) * TURN + u64::from(self.number)
    }

    /// The index that has this number and is nearest to the highest (RFC 3711, 3.3.1 and appendix A).
    /// `BeforeFirst` where it would be below 0, and `IndexSpent` where it would be 2^48 or more.
    pub fn guess(&self, seq: u16) -> Result<u64, IndexFault>
        ensures value { result ≡ nearest_index self.now seq }
        ensures nearest { (n : ℕ) → (result ≡ Ok n) ↔ (IsNearest self.now seq n × (n < 2 ^ 48)) }
        ensures before_first { (result ≡ Err IndexFault.BeforeFirst) ↔ IsBeforeFirst self.now seq }
        ensures spent { (result ≡ Err IndexFault.IndexSpent) ↔ IsSpent self.now seq }
    {
        let same = u64::from(self.rollover) * TURN + u64::from(seq);
        if self.number < HALF && seq > self.number && seq - self.number > HALF {
            if self.rollover == 0 {
                return Err(IndexFault::BeforeFirst);
            }
            return Ok(same - TURN);
        }
        if self.number >= HALF && self.number - HALF > seq {
            if self.rollover == u32::MAX {
                return Err(IndexFault::IndexSpent);
            }
            return Ok(same + TURN);
        }
        Ok(same)
    }

    /// Takes an index in; the highest becomes the greater one.
    pub fn note(&mut self, index: u64)
        requires { index < 2 ^ 48 }
        ensures { self.new ≡ max self.old index }
    {
        if index > self.highest() {
            self.rollover = (index / TURN) as u32;
            self.number = (index % TURN) as u16;
        }
    }
}
