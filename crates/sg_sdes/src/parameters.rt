//! The session parameters of a crypto line, read.

ghost use Rattle.std.specs.Prelude.{◌≡◌, option_map};
ghost use Rattle.sg_sdes.specs.Parameters.{parameters_from, unsaid};
ghost use Rattle.sg_sdes.specs.Words.{words_behind};

use crate::key_texts::read_digits;
use crate::words::first_word;

/// What the session parameters have said so far.
#[derive(Clone, Copy)]
pub(crate) struct Parameters {
    pub(crate) rate: bool,
    pub(crate) order: bool,
    pub(crate) plain_rtp: bool,
    pub(crate) plain_rtcp: bool,
    pub(crate) window: Option<u32>,
}

impl Parameters {
    ghost use Rattle.std.specs.Prelude.{◌≡◌};
    ghost use Rattle.sg_sdes.specs.Parameters.{unsaid, with_parameter, with_window};

    fn unsaid() -> Parameters
        ensures { result ≡ unsaid }
    {
        Parameters {
            rate: false,
            order: false,
            plain_rtp: false,
            plain_rtcp: false,
            window: None,
        }
    }

    fn with_window(self, number: &[u8]) -> Option<Parameters>
        ensures { result ≡ with_window self number.now }
    {
        if self.window.is_some() {
            return None;
        }
        let window = Some(read_digits(number)?);
        Some(Parameters { window, ..self })
    }

    /// With one parameter more; none where it isn't known or was said before.
    #[tactic(auto, unfolding(crate::specs::Parameters::with_parameter))]
    fn with(self, text: &[u8]) -> Option<Parameters>
        ensures { result ≡ with_parameter self text.now }
    {
        if text.starts_with(b"-".as_slice()) {
            return Some(self);
        }
        if let Some(number) = text.strip_prefix(b"WSH=".as_slice()) {
            return self.with_window(number);
        }
        if text == b"KDR=0".as_slice() && !self.rate {
            return Some(Parameters { rate: true, ..self });
        }
        if text == b"FEC_ORDER=FEC_SRTP".as_slice() && !self.order {
            return Some(Parameters {
                order: true,
                ..self
            });
        }
        if text == b"UNENCRYPTED_SRTP".as_slice() && !self.plain_rtp {
            return Some(Parameters {
                plain_rtp: true,
                ..self
            });
        }
        if text == b"UNENCRYPTED_SRTCP".as_slice() && !self.plain_rtcp {
            return Some(Parameters {
                plain_rtcp: true,
                ..self
            });
        }
        None
    }
}

/// What the parameters of the rest of a line say.
pub(crate) fn read_parameters(text: Option<&[u8]>) -> Option<Parameters>
    ensures { result ≡ parameters_from unsaid (words_behind (option_map (λ rest. rest.now) text.entry)) }
{
    let mut said = Parameters::unsaid();
    let mut rest = text;
    while let Some(text) = rest {
        let (word, behind) = first_word(text);
        let Some(more) = said.with(word) else {
            return None;
        };
        said = more;
        rest = behind;
    }
    Some(said)
}
