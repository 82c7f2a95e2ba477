//! Choosing a line of an offer, the gateway's own lines, and the answers to them.

ghost use Rattle.std.specs.Prelude.{◌≡◌, ◌≢◌, ◌==◌, ◌+◌, ◌<◌, ◌^◌, ℕ, List, length, option_map, IfOk, IfErr};
ghost use Rattle.std.specs.List.{AllByRecursion, find};
ghost use Rattle.sg_base.specs.Suites.{key_len_of, salt_len_of};
ghost use Rattle.sg_sdes.specs.Answers.{IsUnread, answer_by, chosen_of, fresh_key, fresh_line, matched, offered_by};
ghost use Rattle.sg_sdes.specs.CryptoText.{IsCryptoLine};

use crate::{CryptoLine, InlineKey, InlineKeys, read_crypto};
use sg_base::{MasterKey, Octets, RTP_LIFE, SdesFault, Suite};

/// The first value that is a crypto line; NoLine exactly where there is none.
pub fn choose(values: &[Octets]) -> Result<CryptoLine, SdesFault>
    ensures first { result ≡ chosen_of values.now }
    ensures valid { IfOk result IsCryptoLine }
    ensures none { IfErr result (λ fault. (fault ≡ SdesFault.NoLine) × AllByRecursion IsUnread values.now) }
{
    for value in values {
        if let Ok(line) = read_crypto(value.as_slice()) {
            return Ok(line);
        }
    }
    Err(SdesFault::NoLine)
}

fn fresh_key(suite: Suite, octets: &[u8]) -> InlineKey
    requires { length octets.now ≡ key_len_of suite + salt_len_of suite }
    ensures { result ≡ fresh_key suite octets.now }
{
    let key = MasterKey::new(suite, octets).unwrap();
    InlineKey {
        key,
        lifetime: RTP_LIFE,
        mki: None,
    }
}

/// A line of one new key.
fn fresh_line(
    tag: u32,
    suite: Suite,
    octets: &[u8],
    plain_rtp: bool,
    plain_rtcp: bool,
) -> CryptoLine
    requires { length octets.now ≡ key_len_of suite + salt_len_of suite }
    ensures line { result ≡ fresh_line tag suite octets.now plain_rtp plain_rtcp }
    ensures valid { tag < 10 ^ 9 → suite ≢ Suite.Raw80 → IsCryptoLine result }
{
    CryptoLine {
        tag,
        suite,
        keys: InlineKeys::one(fresh_key(suite, octets)),
        window: None,
        plain_rtp,
        plain_rtcp,
    }
}

/// The two lines that the gateway offers: tag 1 with AES of 128 bits from octets 0 to 29 of the noise, and
/// tag 2 with AES of 256 bits from octets 30 to 75.
pub fn offer_lines(noise: &[u8; 76]) -> [CryptoLine; 2]
    ensures lines { result ≡ offered_by noise.now }
    ensures valid { AllByRecursion IsCryptoLine result }
{
    let first = fresh_line(1, Suite::Cm128Tag80, &noise[..30], false, false);
    let second = fresh_line(2, Suite::Cm256Tag80, &noise[30..], false, false);
    [first, second]
}

/// The gateway's answer to a line of an offer: its tag, its suite and its marks, with one key from the
/// first octets of the noise, and no lifetime, MKI or window.
pub fn answer_line(chosen: &CryptoLine, noise: &[u8; 76]) -> CryptoLine
    ensures line { result ≡ answer_by chosen.now noise.now }
    ensures valid { IsCryptoLine chosen.now → IsCryptoLine result }
{
    let suite = chosen.suite;
    let count = suite.key_len() + suite.salt_len();
    fresh_line(
        chosen.tag,
        suite,
        &noise[..count],
        chosen.plain_rtp,
        chosen.plain_rtcp,
    )
}

/// The offered line that an answer names, as it was offered, and the peer's line. The faults are those of
/// reading, then Tag where no offered line has the tag, and Suite where its suite differs. The peer's
/// marks hold for both directions.
#[tactic(auto, unfolding(crate::specs::Answers::matched))]
pub fn match_answer(
    offered: &[CryptoLine; 2],
    value: &[u8],
) -> Result<(CryptoLine, CryptoLine), SdesFault>
    ensures lines { result ≡ matched offered.now value.now }
    ensures valid { IfOk result (λ lines. IsCryptoLine lines.1) }
{
    let peer = read_crypto(value)?;
    let own = with_tag(offered, peer.tag).ok_or(SdesFault::Tag)?;
    if own.suite.name() != peer.suite.name() {
        return Err(SdesFault::Suite);
    }
    Ok((own.clone(), peer))
}

fn with_tag(offered: &[CryptoLine], tag: u32) -> Option<&CryptoLine>
    ensures { option_map (λ l. l.now) result ≡ find (λ l. l.tag == tag) offered.now }
{
    offered.iter().find(|line| line.tag == tag)
}
