//! The laws of crypto lines, over the definitions alone.

ghost use Rattle.std.specs.Prelude.{◌≡◌, ◌↔◌, ℕ, List, Ok};
ghost use Rattle.base64.specs.GeneralPurpose.{IsBytes};
ghost use Rattle.sg_sdes.specs.declared.lines.CryptoLine.{CryptoLine};
ghost use Rattle.sg_sdes.specs.CryptoOf.{crypto_of};
ghost use Rattle.sg_sdes.specs.CryptoText.{IsCryptoLine, crypto_text};
ghost use Rattle.sg_sdes.specs.Grammar.{SaysLine};

/// What is spelled of a crypto line is read as that line, and what is read of any text is a crypto line.
pub fn crypto_lines_are_read_again()
    ensures again { (l : CryptoLine) → IsCryptoLine l → crypto_of (crypto_text l) ≡ Ok l }
    ensures valid { (text : List ℕ) (l : CryptoLine) → crypto_of text ≡ Ok l → IsCryptoLine l }
{}

/// A line is read of exactly those octets that say it by the RFC's grammar.
pub fn crypto_lines_follow_the_grammar()
    ensures { (text : List ℕ) (l : CryptoLine) → IsBytes text → (crypto_of text ≡ Ok l) ↔ (IsCryptoLine l × SaysLine text l) }
{}
