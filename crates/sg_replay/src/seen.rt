//! The replay list of a stream: its highest index and the marks behind it (RFC 3711, 3.3.2).

ghost use Rattle.std.specs.Prelude.{◌≡◌, ◌≤◌, ℕ, List, [], ◌∷◌, ◌++◌};
ghost use Rattle.sg_replay.specs.declared.seen.Freshness.TheVariants.{New};
ghost use Rattle.sg_replay.specs.Freshness.{freshness};
ghost use Rattle.sg_replay.specs.Seen.{StandsFor, freshness_at};

use crate::marks::{is_marked, later, mark};
use crate::row::Row;
use std::marker::Model;

/// How an index stands to the indices done before it.
#[derive(Clone, Copy, PartialEq, Eq)]
pub enum Freshness {
    /// It wasn't done, and the window reaches it.
    New,
    /// It was done, and the window reaches it.
    Repeat,
    /// It is behind the window.
    TooOld,
}

/// The replay list of a stream, as far back as its window goes.
#[derive(Drop)]
pub struct Seen {
    window: u16,
    highest: Option<u64>,
    row: Row,
}

impl Model for Seen {
    ghost use Rattle.std.specs.Prelude.{◌≤◌};
    ghost use Rattle.sg_replay.specs.Marks.{Marks, marks_inside};

    ghost Value = { Marks };

    ghost view = { λ s. record {
      window = s.window;
      highest = s.highest;
      inside = marks_inside s.window s.highest s.row;
    } };

    ghost invariant = { λ s. (64 ≤ s.window) × (s.window ≤ 1024) };
}

impl Seen {
    /// An empty list with a window of 64 to 1,024 indices.
    pub fn make(window: u16) -> Seen
        requires at_least { 64 ≤ window }
        requires at_most { window ≤ 1024 }
        ensures { StandsFor result window [] }
    {
        Seen {
            window,
            highest: None,
            row: [0; 16],
        }
    }

    /// How this index stands to those that were marked. Behind the window it is too old, marked or not.
    pub fn test(&self, index: u64) -> Freshness
        ensures value { result ≡ freshness_at self.now index }
        ensures fresh { (window : ℕ) (done : List ℕ) → StandsFor self.now window done
            → result ≡ freshness window done index }
    {
        let Some(highest) = self.highest else {
            return Freshness::New;
        };
        if index > highest {
            Freshness::New
        } else if highest - index >= u64::from(self.window) {
            Freshness::TooOld
        } else if is_marked(&self.row, index) {
            Freshness::Repeat
        } else {
            Freshness::New
        }
    }

    /// Marks an index that `test` finds new.
    pub fn mark(&mut self, index: u64)
        requires { freshness_at self.old index ≡ New }
        ensures { (window : ℕ) (done : List ℕ) → StandsFor self.old window done
            → StandsFor self.new window (done ++ index ∷ []) }
    {
        mark(&mut self.row, self.highest, index);
        self.highest = Some(later(self.highest, index));
    }
}
