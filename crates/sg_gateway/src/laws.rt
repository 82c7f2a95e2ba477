//! The laws of every run: nothing forged, nothing twice, nothing within reach lost, no counter block sealed twice;
//! and that signals are carried out. Their bodies call laws alone.

ghost use Rattle.std.specs.Prelude.{◌≡◌, ◌<◌, ℕ, Bool, true, List, length, get_or, set, nat_lt, Ok, Some};
ghost use Rattle.std.specs.List.{AllPairs, insert, remove, position_from, position_or_len};
ghost use Rattle.sg_base.specs.declared.faults.Refusal.{Refusal};
ghost use Rattle.sg_session.specs.Opening.{Check, checked, tag_fits};
ghost use Rattle.sg_session.specs.Reach.{Sealed, AreSealed};
ghost use Rattle.sg_session.specs.Session.{Session};
ghost use Rattle.sg_gateway.specs.Addressed.{OffersAreTheirTexts, AnswersHaveAddresses};
ghost use Rattle.sg_gateway.specs.Arriving.{EachArrivingIsPutOut};
ghost use Rattle.sg_gateway.specs.Authentic.{MessagesAreAcceptedOnce};
ghost use Rattle.sg_gateway.specs.Batch.{Arrived, AreDrained, IsToldAlone};
ghost use Rattle.sg_gateway.specs.Busy.{EachCallIsBusy, EachPacketKeepsItsCall};
ghost use Rattle.sg_gateway.specs.ByTexts.{AnswersAreByTexts};
ghost use Rattle.sg_gateway.specs.CarriedOut.{ByesEnd, TicksMove, TicksKeep, RejectionsClose, AnswersRenew, AnswersKeepEarlier};
ghost use Rattle.sg_gateway.specs.Coming.{EachOpeningCame, EachSealCame};
ghost use Rattle.sg_gateway.specs.Departing.{EachDepartingIsSealed};
ghost use Rattle.sg_gateway.specs.Earlier.{EarlierServeNoLonger};
ghost use Rattle.sg_gateway.specs.Early.{IsRefusedFirst, early};
ghost use Rattle.sg_gateway.specs.Ended.{EachEndFrees, EndedStayAway};
ghost use Rattle.sg_gateway.specs.Forgotten.{NoKeyIsForgotten};
ghost use Rattle.sg_gateway.specs.Lasting.{SessionsLast, ManualCallsAreAsTold};
ghost use Rattle.sg_gateway.specs.Lives.{EachKeyIsWithinLife};
ghost use Rattle.sg_gateway.specs.Moments.{MomentComesOnce};
ghost use Rattle.sg_gateway.specs.Newness.{IsNewIn, IsFresh, EachNewIsPutOut};
ghost use Rattle.sg_gateway.specs.Order.{EachWorldIsOrderly};
ghost use Rattle.sg_gateway.specs.Owned.{EachKeyIsOwned};
ghost use Rattle.sg_gateway.specs.PeersPackets.{EachOpeningIsSealed, EachOpeningGoesOut, EachHighestIsSealed, OnlyOpeningsGoOut};
ghost use Rattle.sg_gateway.specs.Places.{DifferInSerial};
ghost use Rattle.sg_gateway.specs.PlainTexts.{NoKeyGoesToThePlainSide};
ghost use Rattle.sg_gateway.specs.Refusing.{EachRefusalChangesNothing, EachRefusedOfferStaysOpen};
ghost use Rattle.sg_gateway.specs.Runs.{world_after};
ghost use Rattle.sg_gateway.specs.SealedOut.{EachSealGoesOut, OnlySealsGoOut, SignalsPutNothingOut};
ghost use Rattle.sg_gateway.specs.Served.{EachKeyServesItsLife, NoKeyIsOverspent};
ghost use Rattle.sg_gateway.specs.Signals.{Signal};
ghost use Rattle.sg_gateway.specs.Step.{Event};
ghost use Rattle.sg_gateway.specs.Tags.{EachSessionHasWholeTags};
ghost use Rattle.sg_gateway.specs.Taken.{OffersAreTaken, ManualCallsAreTaken};
ghost use Rattle.sg_gateway.specs.Twice.{NoneTwice, NoneTwiceUnderKey, KeysHaveOneOwner};
ghost use Rattle.sg_gateway.specs.Unforged.{HasTag, Unforged};
ghost use Rattle.sg_gateway.specs.Used.{NoBlockTwice, EachSealUsesItsBlocks};
ghost use Rattle.sg_gateway.specs.World.{Call, World, empty, find_call, with_call, without_call, and_call};

use sg_agreement::{
    active_media_are_agreed, agreements_are_sound, no_key_goes_to_the_plain_side,
    offers_fit_their_calls,
};

/// Where no tag is forged, each packet put out on a plain leg is bit for bit one that was sealed under a key of
/// its session, at the index at which it was sealed, and each opened stream's highest index is that of such a
/// packet. Forged or not, what is opened, under a key of its session, came to that session's secure port and goes
/// out, and nothing else goes out on a plain port.
pub fn nothing_forged()
    ensures sealed { (events : List Event) (sealed : List Sealed) → AreSealed sealed → Unforged sealed events → EachOpeningIsSealed sealed events }
    ensures highest { (events : List Event) (sealed : List Sealed) → AreSealed sealed → Unforged sealed events → EachHighestIsSealed sealed events }
    ensures came { (events : List Event) → EachOpeningCame events }
    ensures goes_out { (events : List Event) → EachOpeningGoesOut events }
    ensures only { (events : List Event) → OnlyOpeningsGoOut events }
{
    agreements_are_sound();
    active_media_are_agreed();
    offers_fit_their_calls();
}

/// What the premise `Unforged` calls a tag is what the definition of opening compares.
pub fn a_tag_is_a_code()
    ensures code { (s : Session) (d : List ℕ) (k : Check) → checked s d ≡ Ok k → tag_fits s k d ≡ true → HasTag s k d }
    ensures fits { (s : Session) (d : List ℕ) (k : Check) → checked s d ≡ Ok k → HasTag s k d → tag_fits s k d ≡ true }
{}

/// Nothing is opened or sealed twice, in a session or under a master key. Each key that served, and each
/// key of a session, has one owner, and no key serves more packets than its life.
pub fn nothing_twice()
    ensures session { (events : List Event) → NoneTwice events }
    ensures key { (events : List Event) → NoneTwiceUnderKey events }
    ensures owner { (events : List Event) → KeysHaveOneOwner events }
    ensures owned { (events : List Event) → EachKeyIsOwned events }
    ensures lives { (events : List Event) → EachKeyIsWithinLife events }
{
    agreements_are_sound();
    active_media_are_agreed();
    offers_fit_their_calls();
}

/// Each sealed packet that arrives new, within reach and under a live key, in a datagram of at most 4,238 octets,
/// is opened and put out; in an earlier generation only where no session of the current one at that port opens the
/// datagram. And each plain packet of at most 4,096 octets that comes from the plain side and can be sealed is sealed
/// and put out.
pub fn nothing_within_reach_lost()
    ensures arriving { (events : List Event) (sealed : List Sealed) → AreSealed sealed → EachArrivingIsPutOut sealed events }
    ensures departing { (events : List Event) → EachDepartingIsSealed events }
{
    agreements_are_sound();
    active_media_are_agreed();
    offers_fit_their_calls();
}

/// What is sealed came to its session's plain port from the plain side. It goes out as its sealing, and
/// nothing else of that event does; nothing else goes out on a secure port, and no signal puts anything out.
pub fn what_is_sealed_goes_out()
    ensures came { (events : List Event) → EachSealCame events }
    ensures each { (events : List Event) → EachSealGoesOut events }
    ensures only { (events : List Event) → OnlySealsGoOut events }
    ensures signals { (events : List Event) → SignalsPutNothingOut events }
{}

/// No block of a keystream is sealed with twice.
pub fn no_counter_block_twice()
    ensures { (events : List Event) → NoBlockTwice events }
{
    agreements_are_sound();
    active_media_are_agreed();
    offers_fit_their_calls();
}

/// What is sealed and encrypted goes out, behind its head, as the packet's octets with the octets of the seal's own blocks
/// on them by XOR.
pub fn seals_use_their_blocks()
    ensures { (events : List Event) → EachSealUsesItsBlocks events }
{
    what_is_sealed_goes_out();
}

/// In every world of a run the calls stand by rising slot, below 256, each under an id and a serial number of its
/// own, with four media at most and serial numbers below the number of calls made. No two sessions have one name;
/// those of a call are of its media, of its current generation and, behind them, opening ones of the generation before.
pub fn calls_in_order()
    ensures { (events : List Event) → EachWorldIsOrderly events }
{
    agreements_are_sound();
    active_media_are_agreed();
    offers_fit_their_calls();
}

/// In every world of a run, datagrams in order leave each call as those at its own ports do, and each gives
/// what it gives there: the calls can be shared out among workers.
pub fn each_call_by_itself()
    ensures calls { (events : List Event) (arrived : List Arrived) → AreDrained (world_after empty events) arrived }
    ensures told { (events : List Event) (before : List Arrived) (a : Arrived) → IsToldAlone (world_after empty events) before a }
{
    agreements_are_sound();
    active_media_are_agreed();
    offers_fit_their_calls();
}

/// What a table does at a call's place, where no two calls have one serial number: a call is put in the place of
/// the one of its serial number, and a call goes. Of any calls: a new call comes before the first of a higher slot,
/// and the first that passes a test is the one at the first position that does.
pub fn calls_have_places()
    ensures put { (cs : List Call) (i : ℕ) (c d : Call) → AllPairs DifferInSerial cs → i < length cs → get_or cs i c ≡ c → d.serial ≡ c.serial
        → with_call d cs ≡ set cs i d }
    ensures left { (cs : List Call) (i : ℕ) (c : Call) → AllPairs DifferInSerial cs → i < length cs → get_or cs i c ≡ c
        → without_call c.serial cs ≡ remove cs i }
    ensures made { (d : Call) (cs : List Call) → and_call d cs ≡ insert cs (position_or_len (λ c. nat_lt d.slot c.slot) cs) d }
    ensures found { (test : Call → Bool) (cs : List Call) (i : ℕ) (c : Call) → position_from test 0 cs ≡ Some i
        → find_call test cs ≡ Some (get_or cs i c) }
{}

/// A signal that is refused and a datagram that is dropped change nothing: calls, sessions, ring, books and
/// moment stay. A refused answer leaves the offer open. And a refusal that the calls and pairs alone tell is the
/// answer, whatever the texts and the keys.
pub fn refusals_change_nothing()
    ensures world { (events : List Event) → EachRefusalChangesNothing events }
    ensures offer { (events : List Event) → EachRefusedOfferStaysOpen events }
    ensures early { (w : World) (signal : Signal) (cause : Refusal) → early w signal ≡ Some cause → IsRefusedFirst w signal cause }
{}

/// A call that ends leaves its id and its slot free, and no session, key or entry of it comes back.
pub fn ended_calls_stay_away()
    ensures frees { (events : List Event) → EachEndFrees events }
    ensures away { (events : List Event) → EndedStayAway events }
{
    agreements_are_sound();
    active_media_are_agreed();
    offers_fit_their_calls();
}

/// 2,000 ms after a call has a generation, no generation before it opens or seals anything.
pub fn earlier_generations_serve_no_longer()
    ensures { (events : List Event) → EarlierServeNoLonger events }
{
    agreements_are_sound();
    active_media_are_agreed();
    offers_fit_their_calls();
}

/// A tick to the last moment tells nothing and leaves the world as it is.
pub fn a_moment_comes_once()
    ensures { (events : List Event) → MomentComesOnce events }
{}

/// In every world of a run each call's latest accepted signal or packet put out was less than 60,000 ms ago; and what is
/// put out makes the moment its call's own.
pub fn no_call_stays_idle()
    ensures busy { (events : List Event) → EachCallIsBusy events }
    ensures heard { (events : List Event) → EachPacketKeepsItsCall events }
{}

/// After a bye no call has the id. After a tick the last moment is its own, unless it was before the last one, and each
/// call is left that isn't idle: with its offer and its sessions, but for those of an earlier generation from 2,000 ms
/// on. After a rejection no offer of the call is open. An answer that isn't refused gives its call a generation and
/// closes the offer, and what opens of the generation that it replaces is still there.
pub fn signals_are_carried_out()
    ensures byes { (events : List Event) → ByesEnd events }
    ensures ticks { (events : List Event) → TicksMove events }
    ensures kept { (events : List Event) → TicksKeep events }
    ensures rejections { (events : List Event) → RejectionsClose events }
    ensures answers { (events : List Event) → AnswersRenew events }
    ensures earlier { (events : List Event) → AnswersKeepEarlier events }
{
    agreements_are_sound();
    active_media_are_agreed();
    offers_fit_their_calls();
}

/// An offer on which a call agrees is open, and told, where nothing of the world speaks against it: a call that is there
/// has no open offer and isn't keyed manually, and for a new one there is room. A call that is keyed manually is made and
/// live where its id is free, there is room and its keys can come into use.
pub fn signals_are_taken()
    ensures offers { (events : List Event) → OffersAreTaken events }
    ensures manual { (events : List Event) → ManualCallsAreTaken events }
{}

/// Each MIKEY message of a peer's that an accepted offer is keyed by is authentic under a key that is held of its two names
/// (RFC 3830, 5.2 to 5.4), its stamp is within 300,000 ms of the moment, it wasn't noted and is noted afterwards; and what is
/// noted stays noted.
pub fn messages_are_accepted_once()
    ensures { (events : List Event) → MessagesAreAcceptedOnce events }
{}

/// The open offer is what its text describes. After its answer each session of the new generation has the addresses of its
/// medium: the secure side's in the secure side's text, the plain side's in the plain side's. What is read of a text is said by
/// its lines.
pub fn texts_tell_addresses()
    ensures offers { (events : List Event) → OffersAreTheirTexts events }
    ensures answers { (events : List Event) → AnswersHaveAddresses events }
{
    sg_sdp::descriptions_have_one_value();
}

/// The offer that an answer closes was made in an earlier turn. Where crypto lines key them, the sessions of the answer's
/// generation open under lines of the peer's text and seal under lines of the text that was told for the peer. Where MIKEY
/// messages do, they are in the crypto sessions of their media, as the message of the one text and the response of the other
/// say; both have the code under the pair's key.
pub fn answers_are_by_their_texts()
    ensures { (events : List Event) → AnswersAreByTexts events }
{}

/// Each session of every world was made in an earlier turn, by an answer or where its call was keyed manually, and is what it
/// was made, but for what it has done. One that is made manually is under the key of its direction, from its line's rollover
/// on and between its line's two addresses, and encrypts but for RTP in the raw form.
pub fn sessions_stay_what_they_were_made()
    ensures last { (events : List Event) → SessionsLast events }
    ensures manual { (events : List Event) → ManualCallsAreAsTold events }
{}

/// In every world of a run the tags of each session have 32 or 80 bits, and those of RTCP 80.
pub fn tags_are_whole()
    ensures { (events : List Event) → EachSessionHasWholeTags events }
{}

/// Each text that the plain side is told spells a description, and has no crypto attribute and no key-mgmt attribute.
pub fn plain_texts_have_no_key()
    ensures { (events : List Event) → NoKeyGoesToThePlainSide events }
{
    active_media_are_agreed();
    no_key_goes_to_the_plain_side();
}

/// No key that came into use is forgotten: the ring keeps what it holds, each key at its place.
pub fn no_key_is_forgotten()
    ensures { (events : List Event) → NoKeyIsForgotten events }
{}

/// No key serves past its life, counted in the journal. When a packet is opened or sealed, its key has served fewer
/// packets of that session than its life; and by the end of the run it has served no more than its life.
pub fn no_key_serves_past_its_life()
    ensures in_turn { (events : List Event) → EachKeyServesItsLife events }
    ensures all { (events : List Event) → NoKeyIsOverspent events }
{
    agreements_are_sound();
    active_media_are_agreed();
    offers_fit_their_calls();
}

/// An index is fresh exactly where it isn't done and none that is done of its source is a window or more ahead of it.
/// Each sealed packet that arrives so, near, from an admitted source that has a place and under a key under which fewer
/// packets are done than its life, is opened and put out.
pub fn what_is_new_is_put_out()
    ensures fresh { (s : Session) (ssrc index : ℕ) → IsNewIn s ssrc index → IsFresh s ssrc index }
    ensures new { (s : Session) (ssrc index : ℕ) → IsFresh s ssrc index → IsNewIn s ssrc index }
    ensures each { (events : List Event) (sealed : List Sealed) → AreSealed sealed → EachNewIsPutOut sealed events }
{
    nothing_within_reach_lost();
}
