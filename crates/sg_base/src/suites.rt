//! The crypto suites (RFC 4568, 6.2; RFC 6188, 2) and the raw form for tests.

ghost use Rattle.std.specs.Prelude.{◌≡◌, ◌≤◌, ◌<◌};
ghost use Rattle.sg_base.specs.Suites.{is_raw, key_len_of, salt_len_of, tag_len_of};

/// A crypto suite: the cipher with its key's bits, and the tag's bits. `Raw80` encrypts nothing: its
/// key is the authentication key itself.
#[derive(Clone, Copy, Debug, PartialEq, Eq)]
pub enum Suite {
    Raw80,
    Cm128Tag80,
    Cm128Tag32,
    Cm192Tag80,
    Cm192Tag32,
    Cm256Tag80,
    Cm256Tag32,
}

impl Suite {
    /// Whether it is the raw form, which encrypts nothing.
    pub fn is_raw(self) -> bool
        ensures { result ≡ is_raw self }
    {
        matches!(self, Suite::Raw80)
    }

    /// The octets of a master key.
    pub fn key_len(self) -> usize
        ensures value { result ≡ key_len_of self }
        ensures most { result ≤ 32 }
    {
        match self {
            Suite::Raw80 => 20,
            Suite::Cm128Tag80 | Suite::Cm128Tag32 => 16,
            Suite::Cm192Tag80 | Suite::Cm192Tag32 => 24,
            Suite::Cm256Tag80 | Suite::Cm256Tag32 => 32,
        }
    }

    /// The octets of a master salt.
    pub fn salt_len(self) -> usize
        ensures value { result ≡ salt_len_of self }
        ensures most { result ≤ 14 }
    {
        match self {
            Suite::Raw80 => 0,
            _ => 14,
        }
    }

    /// The octets of an SRTP tag.
    pub fn tag_len(self) -> usize
        ensures value { result ≡ tag_len_of self }
        ensures most { result ≤ 10 }
    {
        match self {
            Suite::Cm128Tag32 | Suite::Cm192Tag32 | Suite::Cm256Tag32 => 4,
            _ => 10,
        }
    }
}
