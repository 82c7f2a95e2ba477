//! Words and keys that are drawn.

ghost use Rattle.std.specs.Prelude.{◌≡◌};
ghost use Rattle.sg_demo.specs.Words.{started_by, next_word, key_drawn, octets_drawn};

use arrayvec::ArrayVec;
use rand_core::SeedableRng;
use rand_core::utils::NextWord;
use rand_pcg::Pcg32;
use sg_base::{MasterKey, Suite, octets_of_u32};

/// How many words a key is made of, and how many of their octets are the key and its salt.
const KEY_WORDS: usize = 8;

const KEY_OCTETS: usize = 30;

/// The generator that a number starts.
#[tactic(auto, unfolding(crate::specs::Words::started_by))]
pub fn start(number: u64) -> Pcg32
    ensures { result ≡ started_by number }
{
    Pcg32::seed_from_u64(number)
}

/// The next word.
#[tactic(auto, unfolding(crate::specs::Words::next_word))]
pub fn draw(words: &mut Pcg32) -> u32
    ensures word { result ≡ (next_word words.old).0 }
    ensures words { words.new ≡ (next_word words.old).1 }
{
    words.next_word()
}

/// The octets of the next eight words.
fn draw_octets(words: &mut Pcg32) -> ArrayVec<u8, 32>
    ensures octets { result.items ≡ (octets_drawn 8 words.old).0 }
    ensures words { words.new ≡ (octets_drawn 8 words.old).1 }
{
    let mut octets = ArrayVec::new();
    for _count in 0..KEY_WORDS {
        let word = draw(words);
        let _ = octets.try_extend_from_slice(&octets_of_u32(word));
    }
    octets
}

/// The next key, of AES_CM_128_HMAC_SHA1_80.
#[tactic(auto, unfolding(crate::specs::Words::key_drawn))]
pub fn draw_key(words: &mut Pcg32) -> MasterKey
    ensures key { result ≡ (key_drawn words.old).0 }
    ensures words { words.new ≡ (key_drawn words.old).1 }
{
    let octets = draw_octets(words);
    match MasterKey::new(Suite::Cm128Tag80, &octets.as_slice()[..KEY_OCTETS]) {
        Some(key) => key,
        None => unreachable!(),
    }
}
