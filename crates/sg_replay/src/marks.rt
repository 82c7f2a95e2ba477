//! The marks of indices in a row, as the highest index moves on.

ghost use Rattle.std.specs.Prelude.{◌≡◌, ◌+◌, ◌%◌, ◌<◌, Some, true};
ghost use Rattle.sg_replay.specs.Freshness.{highest_with};
ghost use Rattle.sg_replay.specs.Row.{mark_of, KeepsUpTo, KeepsOthersUpTo};

use crate::row::{ROW, Row, clear, is_set, set};

// The place of an index in a row.
fn place_of(index: u64) -> usize
    ensures { result ≡ index % 1024 }
{
    (index % ROW) as usize
}

// Clears the marks of the indices after `from`, up to `to`.
fn advance(row: &mut Row, from: u64, to: u64)
    requires { from < to }
    ensures { KeepsUpTo to (Some from) row.old row.new }
{
    if to - from >= ROW {
        *row = [0; 16];
    } else {
        for k in 0..to - from {
            clear(row, place_of(from + 1 + k));
        }
    }
}

// The highest index once this one is there too.
pub fn later(highest: Option<u64>, index: u64) -> u64
    ensures { result ≡ highest_with highest index }
{
    match highest {
        None => index,
        Some(highest) => highest.max(index),
    }
}

// Makes room for an index above the highest so far.
fn make_room(row: &mut Row, highest: Option<u64>, index: u64)
    ensures { KeepsUpTo (highest_with highest index) highest row.old row.new }
{
    match highest {
        None => *row = [0; 16],
        Some(highest) => {
            if index > highest {
                advance(row, highest, index);
            }
        }
    }
}

// Marks an index that is no whole row behind the highest so far.
pub fn mark(row: &mut Row, highest: Option<u64>, index: u64)
    requires { highest_with highest index < index + 1024 }
    ensures here { mark_of row.new index ≡ true }
    ensures others { KeepsOthersUpTo (highest_with highest index) highest index row.old row.new }
{
    make_room(row, highest, index);
    set(row, place_of(index));
}

// Whether an index that is no whole row behind the highest is marked.
pub fn is_marked(row: &Row, index: u64) -> bool
    ensures { result ≡ mark_of row.now index }
{
    is_set(row, place_of(index))
}
