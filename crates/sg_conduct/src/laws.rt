//! Laws of every run of the gateway that take none of its words for what is live, new, admitted or in its place.

ghost use Rattle.std.specs.Prelude.{List};
ghost use Rattle.sg_gateway.specs.Step.{Event};
ghost use Rattle.sg_conduct.specs.Carried.{OffersAreCarried};
ghost use Rattle.sg_conduct.specs.Causes.{RefusedAnswersShowCauses};
ghost use Rattle.sg_conduct.specs.Drawn.{OwnKeysAreDrawn};
ghost use Rattle.sg_conduct.specs.Drops.{DropsShowCauses};
ghost use Rattle.sg_conduct.specs.Heard.{CallsWereHeard};
ghost use Rattle.sg_conduct.specs.Keeping.{CallsKeepPlaces};
ghost use Rattle.sg_conduct.specs.Manual.{ManualCallsAreTaken};
ghost use Rattle.sg_conduct.specs.Offers.{OffersAreTaken};
ghost use Rattle.sg_conduct.specs.Others.{OtherCallsStay};
ghost use Rattle.sg_conduct.specs.Place.{NewLeaves};
ghost use Rattle.sg_conduct.specs.Present.{AnswersHaveNoOthers, AnswersHaveSessions};
ghost use Rattle.sg_conduct.specs.Refusals.{RefusalsShowCauses};
ghost use Rattle.sg_conduct.specs.Settled.{EachDatagramIsSettled};
ghost use Rattle.sg_conduct.specs.Standing.{SessionsHaveDone};
ghost use Rattle.sg_conduct.specs.Staying.{SessionsStayOpen};
ghost use Rattle.sg_conduct.specs.ToldTexts.{ToldTextsAreOwn};
ghost use Rattle.sg_conduct.specs.Unsealed.{EachOpeningIsUnsealed};
ghost use Rattle.sg_conduct.specs.Words.{WordsMean};

use sg_agreement::{active_media_are_agreed, agreements_are_sound, offers_fit_their_calls};

/// What is opened was sealed: the datagram that came is the sealing of the packet that is put out, under a key of the session.
pub fn what_is_opened_was_sealed()
    ensures { (events : List Event) → EachOpeningIsUnsealed events }
{
    agreements_are_sound();
    active_media_are_agreed();
    offers_fit_their_calls();
}

/// Each datagram is opened or sealed once, and told as put out, sealed under the first live key of its session; or it is told as
/// dropped, and changes nothing.
pub fn datagrams_are_settled()
    ensures { (events : List Event) → EachDatagramIsSettled events }
{}

/// Each datagram that is dropped shows the cause that is told, and that none before it holds: no session has its port, or its call
/// has had no answer; it is too long, or from another host; or, of the latest session at the port, by its octets, its source, its
/// key, its index and its tag.
pub fn drops_show_causes()
    ensures { (events : List Event) → DropsShowCauses events }
{
    sg_index::nearest_law();
    agreements_are_sound();
    active_media_are_agreed();
    offers_fit_their_calls();
}

/// What a session has done is what the run opened or sealed in it: what each entry of its very name did, in their order, and
/// nothing else.
pub fn sessions_have_done_what_was_done()
    ensures { (events : List Event) → SessionsHaveDone events }
{
    agreements_are_sound();
    active_media_are_agreed();
    offers_fit_their_calls();
}

/// Each sealed packet that arrives within reach is opened and put out, and each plain one that departs within reach is sealed
/// and put out: its place, a live key, its new index and its admitted source are told of what is done alone.
pub fn what_is_new_leaves()
    ensures { (events : List Event) → NewLeaves events }
{
    sg_gateway::what_is_new_is_put_out();
    sg_gateway::nothing_within_reach_lost();
}

/// A signal that is no tick leaves the calls that it doesn't name as they are.
pub fn other_calls_stay()
    ensures { (events : List Event) → OtherCallsStay events }
{
    agreements_are_sound();
    active_media_are_agreed();
    offers_fit_their_calls();
}

/// A session stays open, but for what it has done, whatever comes that isn't a tick, an answer or a bye.
pub fn sessions_stay_open()
    ensures { (events : List Event) → SessionsStayOpen events }
{
    agreements_are_sound();
    active_media_are_agreed();
    offers_fit_their_calls();
}

/// An offer against which neither its text nor its messages speak is open, and is told to the other side: of a new call where
/// fewer than 256 are there; of one that is there where it has as many media, no open offer, and isn't keyed manually. Where the
/// gateway is to send a message, a key has to be held of that peer.
pub fn offers_are_taken()
    ensures { (events : List Event) → OffersAreTaken events }
{
    sg_gateway::signals_are_taken();
}

/// What is told of an offer that isn't refused is its description line by line, but for what holds for one side alone, with the
/// gateway's own ports, address and lines; and that offer is open.
pub fn offers_are_told_as_they_came()
    ensures { (events : List Event) → OffersAreCarried events }
{
    sg_gateway::signals_are_taken();
}

/// An answer to an open offer is refused by the first cause that its text, its message or the ring shows, by the keys that this
/// answer would bring, and nothing else is told. No packet, pre-shared key or `manual` line closes an open offer, no key comes
/// into the ring without a session under it, and no message is noted without its offer. Ticks alone move the moment, `psk`
/// lines alone change the pre-shared keys, `manual` lines alone mark calls, and the marks stay; a call whose first offer is
/// rejected ends, and each has a generation or an open offer. What an answer keys by crypto lines is by the first one of the
/// peer's medium that is read, and by the gateway's that goes with it.
pub fn refused_answers_show_causes()
    ensures { (events : List Event) → RefusedAnswersShowCauses events }
{
    agreements_are_sound();
    active_media_are_agreed();
    offers_fit_their_calls();
}

/// A call that is keyed manually is made and live, without an open offer, under the sessions that its line says, where its id is
/// of no call, fewer than 256 calls are there and its keys are free.
pub fn manual_calls_are_taken()
    ensures { (events : List Event) → ManualCallsAreTaken events }
{
    sg_gateway::signals_are_taken();
}

/// Each call was last heard at the moment that is its own, and its generation, where it has one, was made in an earlier turn at
/// the moment from which the keys before it are counted.
pub fn calls_were_heard()
    ensures { (events : List Event) → CallsWereHeard events }
{
    agreements_are_sound();
    active_media_are_agreed();
    offers_fit_their_calls();
}

/// Each text that is told spells a description of as many media as its call has: each `c=` line names the gateway's own address,
/// and each medium has port 0 or that of the call's slot. Within the limits of what is read it is read as that one alone.
/// Ticks, `psk` lines, rejections and byes tell ends and refusals alone, and an answer that isn't refused tells one text and
/// that its call is live. That text is the answer's description line by line, but for what holds for one side alone, with the
/// offer's protocol words and the gateway's own address; and each medium that takes part in both, and no other, has its own port
/// and the one line that answers it.
pub fn told_texts_are_own()
    ensures { (events : List Event) → ToldTextsAreOwn events }
{
    sg_sdp::a_carried_text_is_a_description();
    sg_sdp::descriptions_have_one_value();
    agreements_are_sound();
    active_media_are_agreed();
    offers_fit_their_calls();
}

/// After an answer that makes a generation each medium that takes part in both texts has its sessions.
pub fn answers_have_sessions()
    ensures { (events : List Event) → AnswersHaveSessions events }
{
    agreements_are_sound();
    active_media_are_agreed();
    offers_fit_their_calls();
}

/// And it has no others: a medium that takes no part in one of the texts has no session, and none has RTCP without a port behind
/// that of RTP on both sides.
pub fn answers_have_no_other_sessions()
    ensures { (events : List Event) → AnswersHaveNoOthers events }
{
    agreements_are_sound();
    active_media_are_agreed();
    offers_fit_their_calls();
}

/// The keys that the gateway makes for crypto lines, and for its own MIKEY messages, are octets of the noise of their turn.
pub fn own_keys_are_drawn()
    ensures { (events : List Event) → OwnKeysAreDrawn events }
{}

/// A signal that is refused tells one cause, of the call that it names, and nothing else: the world before shows it, or a manual
/// call's keys, an offer's text or its messages do. A signal that the world bars is refused by that cause: a tick that goes back, a
/// call that is known or isn't, a full table, an open offer where none may be or none where one is answered or rejected. And ends are
/// told by rising slot, of no call twice.
pub fn refusals_show_causes()
    ensures { (events : List Event) → RefusalsShowCauses events }
{
    agreements_are_sound();
    active_media_are_agreed();
    offers_fit_their_calls();
}

/// A call that is still there has its slot and its media, whatever came. One that has had a generation goes on as it was where a
/// later offer of its is rejected. A new call gets the lowest free slot, and is there as it is told. And a tick and a datagram leave
/// each call its offer and its generations too.
pub fn calls_keep_their_places()
    ensures { (events : List Event) → CallsKeepPlaces events }
{
    agreements_are_sound();
    active_media_are_agreed();
    offers_fit_their_calls();
}

/// Octets are taken whole, names of sessions are the same where they are equal alone, and a suite has the tag and the key that its
/// name says.
pub fn words_mean_what_they_say()
    ensures { WordsMean }
{}
