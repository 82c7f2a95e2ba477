//! The stream of a label under a master key (RFC 3711, 4.3.3).

ghost use Rattle.std.specs.Prelude.{◌≡◌, ◌≤◌, ◌^◌, length, slice_index};
ghost use Rattle.sg_base.specs.Octets.{number_of};
ghost use Rattle.sg_ctr.specs.Keystream.{counter_stream};
ghost use Rattle.sg_kdf.specs.SessionKeys.{label_counter};

use sg_aes::Schedule;
use sg_ctr::stream;

// The initial value of a label: the label on the salt's octet 7, and two octets for the blocks.
fn initial_value(salt: &[u8], label: u8) -> [u8; 16]
    requires { length salt.now ≡ 14 }
    ensures value { number_of result ≡ label_counter salt.now label }
    ensures high { slice_index result 14 ≡ 0 }
    ensures low { slice_index result 15 ≡ 0 }
{
    let mut iv = [0; 16];
    iv[..14].copy_from_slice(salt);
    iv[7] ^= label;
    iv
}

/// The first octets of a label's stream.
pub(crate) fn derived<const N: usize>(schedule: &Schedule, salt: &[u8], label: u8) -> [u8; N]
    requires salt { length salt.now ≡ 14 }
    requires most { N ≤ 2 ^ 20 }
    ensures { result ≡ counter_stream schedule.now (label_counter salt.now label) N }
{
    let mut octets = [0; N];
    stream(schedule, &initial_value(salt, label), &mut octets);
    octets
}
