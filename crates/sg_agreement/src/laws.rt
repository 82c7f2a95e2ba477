//! The laws of agreements: their contracts are the laws, and their bodies call laws alone.

ghost use Rattle.std.specs.Prelude.{◌≡◌, ◌+◌, ◌≤◌, ◌<◌, ◌∷◌, ◌++◌, [], ℕ, List, Option, Result, Ok, Some, drop, get_or, length};
ghost use Rattle.std.specs.List.{All};
ghost use Rattle.sg_agreement.specs.Answers.{AgreedAnswer, agreed_answer};
ghost use Rattle.sg_agreement.specs.CarriedTexts.{IsTwoSided};
ghost use Rattle.sg_agreement.specs.Described.{unaddressed};
ghost use Rattle.sg_agreement.specs.EachMedium.{each_active, if_active};
ghost use Rattle.sg_agreement.specs.Messages.{AtHand};
ghost use Rattle.sg_agreement.specs.Offers.{AgreedOffer, agreed_offer};
ghost use Rattle.sg_agreement.specs.OwnMessages.{AreByMessageOf};
ghost use Rattle.sg_agreement.specs.Sides.{is_active, side_of};
ghost use Rattle.sg_agreement.specs.Sound.{AreAgreedWhereActive, IsSoundMedium};
ghost use Rattle.sg_agreement.specs.TextLines.{HasNoMessage, StandInTexts};
ghost use Rattle.sg_agreement.specs.Walks.{prefixed};
ghost use Rattle.sg_agreement.specs.declared.ways.Way.{Way};
ghost use Rattle.sg_agreement.specs.declared.ways.Way.TheVariants as ways;
ghost use Rattle.sg_base.specs.declared.addresses.Side.{Side};
ghost use Rattle.sg_base.specs.declared.addresses.Side.TheVariants.{Plain};
ghost use Rattle.sg_base.specs.declared.faults.Refusal.{Refusal};
ghost use Rattle.sg_sdes.specs.declared.lines.CryptoLine.{CryptoLine};
ghost use Rattle.sg_sdp.specs.Reading.{description_of};
ghost use Rattle.sg_sdp.specs.declared.medium.Medium.{Medium};
ghost use Rattle.sg_sdp.specs.declared.sdp.Sdp.{Sdp};
ghost use Rattle.sg_session.specs.Stages.{after_ok};

use sg_mikey::message_law;
use sg_sdes::crypto_lines_are_read_again;
use sg_sdp::{a_carried_text_is_a_description, descriptions_have_one_value};

/// An accepted offer has four media at most. What its answer agrees has one to eight keys each way, none of them
/// raw, MKIs that differ and have one length, tags of ten octets at most and a window of 64 to 1,024. The line at
/// which an active medium without an address is told has a number of at most 16,384.
pub fn agreements_are_sound()
    ensures few { (h : AtHand) (way : Way) (text : List ℕ) (a : AgreedOffer) → agreed_offer h way text ≡ Ok a → a.media ≤ 4 }
    ensures sound { (h : AtHand) (way : Way) (offered noise answer : List ℕ) (slot : ℕ) (a : AgreedOffer) (g : AgreedAnswer)
        → agreed_offer h way offered ≡ Ok a → agreed_answer slot a.offer noise answer ≡ Ok g → All IsSoundMedium g.media }
    ensures line { (side : Side) (text : List ℕ) (s : Sdp) (n : ℕ) → description_of text ≡ Ok s
        → unaddressed side (length s.session + 1) s.media ≡ Some n → n ≤ 16384 }
{
    crypto_lines_are_read_again();
    descriptions_have_one_value();
    message_law();
}

/// An open offer is what its text describes. Its answer describes as many media, and a medium is agreed exactly where
/// it is active in both.
pub fn active_media_are_agreed()
    ensures offer { (h : AtHand) (way : Way) (text : List ℕ) (a : AgreedOffer) → agreed_offer h way text ≡ Ok a
        → (a.offer.side ≡ side_of way) × (description_of text ≡ Ok a.offer.description) }
    ensures answer { (h : AtHand) (way : Way) (offered noise answer : List ℕ) (slot : ℕ) (a : AgreedOffer) (g : AgreedAnswer)
        → agreed_offer h way offered ≡ Ok a → agreed_answer slot a.offer noise answer ≡ Ok g
        → (s : Sdp) × (description_of answer ≡ Ok s) × AreAgreedWhereActive a.offer.side a.offer.description.media s.media g.media }
{}

/// An accepted offer has as many media as its call from then on; if the call had media before, it is the same number.
pub fn offers_fit_their_calls()
    ensures described { (h : AtHand) (way : Way) (text : List ℕ) (a : AgreedOffer) → agreed_offer h way text ≡ Ok a
        → length a.offer.description.media ≡ a.media }
    ensures count { (h : AtHand) (way : Way) (text : List ℕ) (a : AgreedOffer) (count : ℕ) → agreed_offer h way text ≡ Ok a
        → h.media ≡ Some count → a.media ≡ count }
{}

/// No attribute that holds for one side alone, such as a crypto line or a MIKEY message, goes to the plain side: neither
/// in the text of an offer from the secure side, nor in that of the answer to an offer from the plain side. Each line of
/// the description is one line of the text.
pub fn no_key_goes_to_the_plain_side()
    ensures offer { (h : AtHand) (text : List ℕ) (a : AgreedOffer) → agreed_offer h ways.FromSecure text ≡ Ok a → IsTwoSided a.text }
    ensures answer { (h : AtHand) (way : Way) (offered noise answer : List ℕ) (slot : ℕ) (a : AgreedOffer) (g : AgreedAnswer)
        → side_of way ≡ Plain → agreed_offer h way offered ≡ Ok a → agreed_answer slot a.offer noise answer ≡ Ok g → IsTwoSided g.text }
{
    a_carried_text_is_a_description();
    descriptions_have_one_value();
}

/// What is agreed by crypto lines stands in the texts. A medium that is agreed opens under a line of the peer's text and
/// seals under a line of the text for the peer: under their keys, with their lives and MKIs and the tags of their suites,
/// from rollover 0 on, in the window of the peer's line, and encrypted where the peer's line doesn't say that it isn't.
pub fn what_is_agreed_stands_in_the_texts()
    // The peer offered, without a MIKEY message: its line is in the offer, the gateway's in the text of the answer.
    ensures offered { (h : AtHand) (offered noise answer : List ℕ) (slot : ℕ) (a : AgreedOffer) (g : AgreedAnswer)
        → agreed_offer h ways.FromSecure offered ≡ Ok a → HasNoMessage a.offer.description → agreed_answer slot a.offer noise answer ≡ Ok g
        → StandInTexts a.offer.description.media g.text g.media }
    // The gateway offered: its line is in the text of the offer, the peer's in the answer.
    ensures answered { (h : AtHand) (offered noise answer : List ℕ) (slot : ℕ) (a : AgreedOffer) (g : AgreedAnswer)
        → agreed_offer h ways.SdesFromPlain offered ≡ Ok a → agreed_answer slot a.offer noise answer ≡ Ok g
        → (s : Sdp) × (description_of answer ≡ Ok s) × StandInTexts s.media a.text g.media }
{}

/// What the gateway's own MIKEY message keys encrypts RTP and RTCP both ways: the gateway sends in crypto sessions of odd
/// numbers of the message that the peer was told, the peer in those behind them. The answer carries the response to it,
/// with the code under the pair's key.
pub fn own_messages_encrypt()
    ensures { (h : AtHand) (peer offered noise answer : List ℕ) (slot : ℕ) (a : AgreedOffer) (g : AgreedAnswer)
        → agreed_offer h (ways.MikeyFromPlain peer) offered ≡ Ok a → agreed_answer slot a.offer noise answer ≡ Ok g
        → (s : Sdp) × (description_of answer ≡ Ok s) × AreByMessageOf a.text s g.media }
{}

/// A walk that has taken the media before this one goes on with this one: what a loop over media keeps.
pub fn active_media_are_taken_in_order()
    ensures { (side : Side) (value : ℕ → Medium → Result CryptoLine Refusal) (done : List (Option CryptoLine)) (i : ℕ) (m : Medium) (ms : List Medium)
        → i < length ms → get_or ms i m ≡ m
        → prefixed done (each_active side value i (drop i ms))
        ≡ after_ok (if_active (is_active side m) (value i m)) (λ x. prefixed (done ++ x ∷ []) (each_active side value (i + 1) (drop (i + 1) ms))) }
{}
