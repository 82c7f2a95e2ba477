//! The names of suites.

ghost use Rattle.std.specs.Prelude.{◌≡◌, ℕ, List, Some};
ghost use Rattle.sg_base.specs.declared.suites.Suite.{Suite};
ghost use Rattle.sg_base.specs.SuiteNames.{suite_at, suite_name};

use crate::Suite;

const SUITES: [Suite; 7] = [
    Suite::Raw80,
    Suite::Cm128Tag80,
    Suite::Cm128Tag32,
    Suite::Cm192Tag80,
    Suite::Cm192Tag32,
    Suite::Cm256Tag80,
    Suite::Cm256Tag32,
];

impl Suite {
    /// Its name in texts (RFC 4568, 6.2; RFC 6188, 2); the raw form's is its own.
    #[tactic(auto, unfolding(crate::specs::SuiteNames::suite_name))]
    pub fn name(self) -> &'static [u8]
        ensures { result.now ≡ suite_name self }
    {
        match self {
            Suite::Raw80 => b"RAW80",
            Suite::Cm128Tag80 => b"AES_CM_128_HMAC_SHA1_80",
            Suite::Cm128Tag32 => b"AES_CM_128_HMAC_SHA1_32",
            Suite::Cm192Tag80 => b"AES_192_CM_HMAC_SHA1_80",
            Suite::Cm192Tag32 => b"AES_192_CM_HMAC_SHA1_32",
            Suite::Cm256Tag80 => b"AES_256_CM_HMAC_SHA1_80",
            Suite::Cm256Tag32 => b"AES_256_CM_HMAC_SHA1_32",
        }
    }
}

/// The suite of that name, the raw form among them.
pub fn read_suite(text: &[u8]) -> Option<Suite>
    ensures { result ≡ suite_at text.now }
{
    SUITES.iter().find(|suite| text == suite.name()).copied()
}

/// The law of names: each suite has one.
pub fn suite_spelling()
    ensures again { (s : Suite) → suite_at (suite_name s) ≡ Some s }
    ensures takes { (text : List ℕ) (s : Suite) → suite_at text ≡ Some s → text ≡ suite_name s }
{}
