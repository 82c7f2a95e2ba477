//! Message authentication codes of datagrams (RFC 3711, 4.2).

ghost use Rattle.std.specs.Prelude.{◌≡◌, ◌/◌, ◌<◌, ◌^◌, ◌++◌, ℕ, List};
ghost use Rattle.sg_hmac.specs.Hmac.{hmac_sha1};
ghost use Rattle.sg_hmac.specs.States.{Covers, IsMacKey};
ghost use Rattle.sg_base.specs.Octets.{be};
ghost use Rattle.sg_states.specs.Parts.{covered_by};

use sg_base::{Kind, octets_of_u32};
use sg_hmac::{Mac, MacKey};

// The MAC under way takes in the rollover of an index, as four octets.
#[inline(always)]
fn update_rollover(mac: &mut Mac, index: u64)
    requires { index < 2 ^ 48 }
    ensures { (key text : List ℕ) → Covers key text mac.old → Covers key (text ++ be (index / 65536) 4) mac.new }
{
    mac.update(&octets_of_u32((index / 65536) as u32));
}

/// The MAC over what stands before the MKI, and of RTP over the rollover counter, as four octets
/// (RFC 3711, 4.2).
#[inline(always)]
pub(crate) fn mac_over(kind: Kind, key: &MacKey, prefix: &[u8], index: u64) -> [u8; 20]
    requires { index < 2 ^ 48 }
    ensures { (auth : List ℕ) → IsMacKey auth key.now → result ≡ hmac_sha1 auth (covered_by kind index prefix.now) }
{
    let mut mac = key.start();
    mac.update(prefix);
    match kind {
        Kind::Rtp => {
            update_rollover(&mut mac, index);
            mac.finish()
        }
        Kind::Rtcp => mac.finish(),
    }
}
