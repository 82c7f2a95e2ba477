//! What a pad holds.

ghost use Rattle.sg_table.specs.Octets.{AreOctets};

use sg_base::Pad;

/// What a pad holds are octets. It does nothing.
pub(crate) fn holds_octets(pad: &Pad)
    ensures { AreOctets pad.now }
{
    are_octets(pad.octets())
}

fn are_octets(octets: &[u8])
    ensures { AreOctets octets.now }
{}
