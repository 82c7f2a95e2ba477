//! A row of bits, by place.

ghost use Rattle.std.specs.Prelude.{◌≡◌, ◌≢◌, ℕ, ◌<◌, true, false};
ghost use Rattle.sg_replay.specs.Row.{bit_in};

/// How many bits a row has.
pub const ROW: u64 = 1024;

/// A row of bits.
pub type Row = [u64; 16];

// Whether the bit at this place is set.
pub fn is_set(row: &Row, place: usize) -> bool
    requires { place < 1024 }
    ensures { result ≡ bit_in row.now place }
{
    (row[place / 64] >> (place % 64)) & 1 == 1
}

// Sets the bit at this place.
pub fn set(row: &mut Row, place: usize)
    requires { place < 1024 }
    ensures here { bit_in row.new place ≡ true }
    ensures others { (k : ℕ) → k < 1024 → k ≢ place → bit_in row.new k ≡ bit_in row.old k }
{
    row[place / 64] |= 1 << (place % 64);
}

// Clears the bit at this place.
pub fn clear(row: &mut Row, place: usize)
    requires { place < 1024 }
    ensures here { bit_in row.new place ≡ false }
    ensures others { (k : ℕ) → k < 1024 → k ≢ place → bit_in row.new k ≡ bit_in row.old k }
{
    row[place / 64] &= !(1 << (place % 64));
}
