//! Whether words are a way to write what was found in them.

ghost use Rattle.std.specs.Prelude.{◌≡◌, ◌++◌, map, option_map, string_bytes, codes};
ghost use Rattle.std.specs.Str.{bytes_eq};
ghost use Rattle.sg_words.specs.Commands.{mux_option};
ghost use Rattle.sg_words.specs.Reading.{are, are_ended, follows, have_option, is_joined, may_end, relay_options};

/// An option, that option with an equals sign behind it, and its value.
#[derive(Clone, Copy)]
pub(crate) struct Written<'a> {
    pub(crate) option: &'a str,
    pub(crate) joined: &'a str,
    pub(crate) value: &'a str,
}

/// What texts are: a lone `--` may stand among numbers, but only behind options.
#[derive(Clone, Copy)]
pub(crate) enum Kind {
    Numbers,
    Options,
}

/// The option that has no value, where RTP and RTCP are on one port.
pub(crate) fn mux_option(mux: bool) -> &'static [&'static str]
    ensures { map (λ t. t.now) result.now ≡ mux_option mux }
{
    if mux { &["--mux"] } else { &[] }
}

/// The options without a value of a relay: one at most.
pub(crate) fn relay_options(mux: bool, bridge: bool) -> Option<&'static [&'static str]>
    ensures { option_map (λ options. map (λ t. t.now) options.now) result ≡ relay_options mux bridge }
{
    if !bridge {
        return Some(mux_option(mux));
    }
    if mux { None } else { Some(&["--bridge"]) }
}

/// Whether the word is this text.
pub(crate) fn is(word: &String, text: &str) -> bool
    ensures { result ≡ bytes_eq (string_bytes word.now) text.now }
{
    word.as_bytes() == text.as_bytes()
}

/// Whether the words are these texts.
fn are(words: &[String], texts: &[&str]) -> bool
    ensures { result ≡ are (map string_bytes words.now) (map (λ t. t.now) texts.now) }
{
    let [word, words @ ..] = words else {
        return texts.is_empty();
    };
    let [text, texts @ ..] = texts else {
        return false;
    };
    is(word, text) && are(words, texts)
}

/// Whether a lone `--` may stand in front of these texts.
fn may_end(kind: Kind, texts: &[&str]) -> bool
    ensures { result ≡ may_end kind (map (λ t. t.now) texts.now) }
{
    match kind {
        Kind::Numbers => true,
        Kind::Options => texts.is_empty(),
    }
}

/// Whether the words are these texts, with or without a lone `--`.
pub(crate) fn are_ended(words: &[String], kind: Kind, texts: &[&str]) -> bool
    ensures { result ≡ are_ended (map string_bytes words.now) kind (map (λ t. t.now) texts.now) }
{
    let [word, words @ ..] = words else {
        return texts.is_empty();
    };
    if is(word, "--") {
        return may_end(kind, texts) && are(words, texts);
    }
    let [text, texts @ ..] = texts else {
        return false;
    };
    is(word, text) && are_ended(words, kind, texts)
}

/// Whether the word is the option with its equals sign, and this value behind it.
fn is_joined(word: &[u8], option: &str, value: &str) -> bool
    ensures { result ≡ is_joined word.now option.now value.now }
{
    let count = word.len().min(option.len());
    let (prefix, rest) = word.split_at(count);
    prefix == option.as_bytes() && rest == value.as_bytes()
}

/// Whether the words are the value, and then these texts.
fn follows(words: &[String], value: &str, kind: Kind, texts: &[&str]) -> bool
    ensures { result ≡ follows (map string_bytes words.now) value.now kind (map (λ t. t.now) texts.now) }
{
    let [word, words @ ..] = words else {
        return false;
    };
    is(word, value) && are_ended(words, kind, texts)
}

/// Whether the words are these texts with the option among them.
pub(crate) fn have_option(
    words: &[String],
    written: &Written<'_>,
    kind: Kind,
    texts: &[&str],
) -> bool
    requires { written.now.joined.now ≡ written.now.option.now ++ codes "=" }
    ensures { result ≡ have_option (map string_bytes words.now) written.now.option.now written.now.value.now kind (map (λ t. t.now) texts.now) }
{
    let [word, words @ ..] = words else {
        return false;
    };
    if is_joined(word.as_bytes(), written.joined, written.value) {
        return are_ended(words, kind, texts);
    }
    if is(word, written.option) {
        return follows(words, written.value, kind, texts);
    }
    let [text, texts @ ..] = texts else {
        return false;
    };
    is(word, text) && have_option(words, written, kind, texts)
}
