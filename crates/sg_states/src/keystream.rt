//! The keystream on a packet.

ghost use Rattle.std.specs.Prelude.{◌≡◌, ◌-◌, ◌<◌, ◌≤◌, ◌^◌, ◌++◌, length, take, drop};
ghost use Rattle.sg_base.specs.Octets.{xor_octets};
ghost use Rattle.sg_ctr.specs.Keystream.{keystream};

use sg_aes::Schedule;
use sg_base::Pad;
use sg_ctr::apply;

/// XORs the packet's keystream onto what stands behind its head (RFC 3711, 4.1).
#[inline(always)]
pub(crate) fn apply_keystream(
    schedule: &Schedule,
    salt: &[u8; 14],
    ssrc: u32,
    index: u64,
    size: usize,
    pad: &mut Pad,
)
    requires index { index < 2 ^ 48 }
    requires size { size ≤ length pad.old }
    ensures encrypted { pad.new ≡ take size pad.old ++ xor_octets (drop size pad.old) (keystream schedule.now salt.now ssrc index (length pad.old - size)) }
    ensures same_length { length pad.new ≡ length pad.old }
{
    let octets = pad.octets_mut();
    apply(schedule, salt, ssrc, index, &mut octets[size..]);
}
