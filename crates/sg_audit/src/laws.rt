//! What a run promises, in words of what is seen of it.

ghost use Rattle.std.specs.Prelude.{List, map};
ghost use Rattle.sg_audit.specs.Agreed.{KeysAreOf};
ghost use Rattle.sg_audit.specs.Audit.{IsAudited};
ghost use Rattle.sg_audit.specs.Pages.{AuditorsPages};
ghost use Rattle.sg_audit.specs.Seen.{seen_of};
ghost use Rattle.sg_audit.specs.Stay.{OpenSessionsStay};
ghost use Rattle.sg_audit.specs.There.{SessionsAreOpen};
ghost use Rattle.sg_gateway.specs.Step.{Event};
ghost use Rattle.sg_passages.specs.Passages.{ArePassagesOf, Passage};

use sg_agreement::{active_media_are_agreed, agreements_are_sound, offers_fit_their_calls};

/// The auditor's page holds of every run: nothing forged, nothing twice, nothing within reach lost, no keystream block used
/// twice (RFC 3711, 3.3 and 9.1).
pub fn the_audit_holds()
    ensures { (events : List Event) (passages : List Passage) → ArePassagesOf events passages → IsAudited (map seen_of passages) }
{
    sg_passages::the_headline_holds();
    sg_conduct::what_is_opened_was_sealed();
    sg_conduct::datagrams_are_settled();
    sg_conduct::what_is_new_leaves();
    agreements_are_sound();
    active_media_are_agreed();
    offers_fit_their_calls();
}

/// After an answer that is told as live, the call's sessions of each medium that takes part in its open offer and in the answer are
/// open when the next thing comes, under a newer generation (RFC 3264, 4).
pub fn sessions_are_open()
    ensures { (events : List Event) (passages : List Passage) → ArePassagesOf events passages → SessionsAreOpen (map seen_of passages) }
{
    sg_conduct::answers_have_sessions();
    sg_gateway::answers_are_by_their_texts();
    sg_gateway::calls_in_order();
    sg_gateway::signals_are_carried_out();
}

/// Each session that is open is so when the next thing comes, unless a tick, an answer or a bye came.
pub fn open_sessions_stay()
    ensures { (events : List Event) (passages : List Passage) → ArePassagesOf events passages → OpenSessionsStay (map seen_of passages) }
{
    sg_conduct::sessions_stay_open();
    sg_gateway::calls_in_order();
}

/// Each session that is open is under keys of a manual line of its call, or, of an answer of its call and the offer that this closed,
/// under crypto lines of their texts or keys of their MIKEY messages (RFC 4568, RFC 3830).
pub fn keys_are_agreed()
    ensures { (events : List Event) (passages : List Passage) → ArePassagesOf events passages → KeysAreOf (map seen_of passages) }
{
    sg_gateway::answers_are_by_their_texts();
    sg_gateway::calls_in_order();
    sg_gateway::sessions_stay_what_they_were_made();
    sg_gateway::signals_are_carried_out();
    sg_conduct::other_calls_stay();
}

/// All of the auditor's pages hold of every run.
pub fn the_pages_hold()
    ensures { (events : List Event) (passages : List Passage) → ArePassagesOf events passages → AuditorsPages (map seen_of passages) }
{
    the_audit_holds();
    sessions_are_open();
    open_sessions_stay();
    keys_are_agreed();
}
