//! Noise from random number generators. They tell no list.

ghost use Rattle.std.specs.Prelude.{◌≡◌, OnOk, None};
ghost use Rattle.std.specs.Result.{is_err};
ghost use Rattle.sg_edge.specs.Links.{Added, drawn};
ghost use Rattle.sg_edge.specs.Told.{HasCause, Tells, untold};

use crate::noise::Noise;
use rand_core::TryRng;
use sg_base::Failed;
use std::io;
use std::random::RandomSource;

/// Noise that a generator makes.
#[derive(Drop)]
pub struct RngNoise<G: TryRng + Drop> {
    pub rng: G,
    count: u64,
    faults: u64,
}

impl<G: TryRng + Drop> RngNoise<G> {
    /// The generator as noise that has given nothing.
    pub fn make(rng: G) -> RngNoise<G>
        ensures rng { result.rng ≡ rng }
        ensures count { result.count ≡ 0 }
    {
        RngNoise {
            rng,
            count: 0,
            faults: 0,
        }
    }
}

impl<G: TryRng + Drop> Noise for RngNoise<G> {
    ghost use Rattle.std.specs.Prelude.{None};

    ghost given = { λ n. untold n.count };

    ghost faults = { λ n. n.faults };

    ghost failed = { λ _. None };

    fn draw(&mut self, part: &mut [u8]) -> Result<(), Failed>
        ensures gave { Added (untold self.old.count) (untold self.new.count) (drawn result part.new) }
        ensures cause { HasCause self.old.faults self.new.faults result }
        ensures told { Tells None (is_err result) }
        ensures passes { OnOk result (G.may_fill self.old.rng part.new self.new.rng) }
    {
        match self.rng.try_fill_bytes(part) {
            Ok(()) => {
                self.count = self.count.saturating_add(part.len() as u64);
                Ok(())
            }
            Err(_) => {
                self.faults = self.faults.saturating_add(1);
                Err(Failed)
            }
        }
    }
}

/// The runtime's random source as a generator.
#[derive(Drop)]
pub struct SystemRng<R: RandomSource + Drop>(pub R);

impl<R: RandomSource + Drop> TryRng for SystemRng<R> {
    type Error = io::Error;

    fn try_next_u32(&mut self) -> Result<u32, io::Error> {
        let mut word = [0u8; 4];
        self.0.fill_bytes(&mut word)?;
        Ok(u32::from_le_bytes(word))
    }

    fn try_next_u64(&mut self) -> Result<u64, io::Error> {
        let mut word = [0u8; 8];
        self.0.fill_bytes(&mut word)?;
        Ok(u64::from_le_bytes(word))
    }

    fn try_fill_bytes(&mut self, dst: &mut [u8]) -> Result<(), io::Error> {
        self.0.fill_bytes(dst)
    }
}
