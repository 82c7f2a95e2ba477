//! HMAC over SHA-1 (RFC 2104), whose keys are hashed once.

ghost use Rattle.std.specs.Prelude.{◌≡◌, ◌-◌, ◌≤◌, ℕ, List, [], ◌++◌, length, map, replicate, bit_xor};
ghost use Rattle.sg_hmac.specs.Hmac.{filled, hmac_sha1, padded_key, short_key};
ghost use Rattle.sha1.specs.Sha1.{Holds};
ghost use Rattle.sg_hmac.specs.States.{AreHashed, Covers, IsMacKey};

use sha1::Sha1;

/// The octets of a MAC: HMAC-SHA-1 has 20 (RFC 2104, section 2, with L = 20).
pub const MAC_LEN: usize = 20;

/// The octets of a block of SHA-1, "B" of RFC 2104, section 2.
const BLOCK: usize = 64;

/// The octet that the inner pad repeats, "ipad" of RFC 2104, section 2.
const INNER_PAD: u8 = 0x36;

/// The octet that the outer pad repeats, "opad" of RFC 2104, section 2.
const OUTER_PAD: u8 = 0x5c;

/// Both padded blocks of a key, hashed (RFC 2104, section 4).
#[derive(Drop)]
struct Pads {
    inner: Sha1,
    outer: Sha1,
}

/// A key, of which both padded blocks are hashed already. Of the key of zeros none is: its blocks are hashed where a
/// code starts, so that blanks of bounded lists hash nothing.
#[derive(Drop)]
pub struct MacKey {
    pads: Option<Pads>,
}

/// A message authentication code under way: a key, and the text that it covers so far.
#[derive(Drop)]
pub struct Mac {
    inner: Sha1,
    outer: Sha1,
}

impl Pads {
    fn new(block: &[u8; 64]) -> Pads
        ensures { (key : List ℕ) → block.now ≡ filled (short_key key) → AreHashed key result }
    {
        Pads {
            inner: hashed(block, INNER_PAD),
            outer: hashed(block, OUTER_PAD),
        }
    }

    fn start(&self) -> Mac
        ensures { (key : List ℕ) → AreHashed key self.now → Covers key [] result }
    {
        Mac {
            inner: self.inner.clone().unwrap(),
            outer: self.outer.clone().unwrap(),
        }
    }
}

impl MacKey {
    /// The key, of any length.
    pub fn new(key: &[u8]) -> MacKey
        ensures { IsMacKey key.now result }
    {
        MacKey {
            pads: Some(Pads::new(&key_block(key))),
        }
    }

    /// The key of 20 zeros. It hashes nothing.
    pub fn zeros() -> MacKey
        ensures { IsMacKey (replicate 20 0) result }
    {
        MacKey { pads: None }
    }

    /// A code over no text yet, under this key. The key isn't hashed again, but for that of zeros.
    pub fn start(&self) -> Mac
        ensures { (key : List ℕ) → IsMacKey key self.now → Covers key [] result }
    {
        match &self.pads {
            Some(pads) => pads.start(),
            None => Pads::new(&[0; BLOCK]).start(),
        }
    }
}

impl Mac {
    /// A code over no text yet, under a key of any length.
    pub fn new(key: &[u8]) -> Mac
        ensures { Covers key.now [] result }
    {
        MacKey::new(key).start()
    }

    /// The text goes on with this part.
    pub fn update(&mut self, part: &[u8])
        ensures { (key text : List ℕ) → Covers key text self.old → Covers key (text ++ part.now) self.new }
    {
        self.inner.update(part);
    }

    /// The code, HMAC-SHA-1 of the text.
    pub fn finish(self) -> [u8; MAC_LEN]
        ensures { (key text : List ℕ) → Covers key text self → result ≡ hmac_sha1 key text }
    {
        let Mac { inner, mut outer } = self;
        let digest = inner.finalize();
        outer.update(&digest);
        outer.finalize()
    }
}

fn key_block(key: &[u8]) -> [u8; 64]
    ensures { result ≡ filled (short_key key.now) }
{
    if key.len() > BLOCK {
        filled_up(&Sha1::digest(key))
    } else {
        filled_up(key)
    }
}

fn filled_up(key: &[u8]) -> [u8; 64]
    requires { length key.now ≤ 64 }
    ensures { result ≡ filled key.now }
{
    let mut block = [0; BLOCK];
    block[..key.len()].copy_from_slice(key);
    block
}

fn hashed(block: &[u8; 64], pad: u8) -> Sha1
    ensures { Holds result (map (λ x. bit_xor x pad) block.now) }
{
    let mut padded = [0; BLOCK];
    for (i, x) in block.iter().enumerate() {
        padded[i] = *x ^ pad;
    }
    let mut state = Sha1::new();
    state.update(&padded);
    state
}
