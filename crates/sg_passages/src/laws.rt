//! The headline, whatever the ports by which packets leave.

ghost use Rattle.std.specs.Prelude.{List};
ghost use Rattle.sg_gateway.specs.Step.{Event};
ghost use Rattle.sg_passages.specs.Headline.{Headline};
ghost use Rattle.sg_passages.specs.Passages.{ArePassagesOf, Passage, plain_passages};

/// The headline holds of every list of events, however a run tells what becomes of them, as long as each packet leaves by
/// the port by which it was put out, or by the first port of that leg, what is told of an offer is told as it is, and all
/// else is told as `IsToldAs` says.
pub fn the_headline_holds()
    ensures { (events : List Event) (passages : List Passage) → ArePassagesOf events passages → Headline events passages }
{
    sg_gateway::nothing_forged();
    sg_gateway::nothing_twice();
    sg_gateway::no_counter_block_twice();
    sg_gateway::seals_use_their_blocks();
    sg_gateway::what_is_sealed_goes_out();
    sg_gateway::calls_in_order();
    sg_gateway::refusals_change_nothing();
    sg_gateway::ended_calls_stay_away();
    sg_gateway::earlier_generations_serve_no_longer();
    sg_gateway::no_key_serves_past_its_life();
    sg_gateway::no_key_is_forgotten();
    sg_gateway::no_call_stays_idle();
    sg_gateway::a_moment_comes_once();
    sg_gateway::signals_are_carried_out();
    sg_gateway::plain_texts_have_no_key();
    sg_gateway::texts_tell_addresses();
    sg_gateway::answers_are_by_their_texts();
    sg_gateway::sessions_stay_what_they_were_made();
    sg_gateway::tags_are_whole();
    sg_gateway::messages_are_accepted_once();
    sg_conduct::what_is_opened_was_sealed();
    sg_conduct::sessions_have_done_what_was_done();
    sg_conduct::datagrams_are_settled();
    sg_conduct::drops_show_causes();
    sg_conduct::what_is_new_leaves();
    sg_conduct::other_calls_stay();
    sg_conduct::calls_were_heard();
    sg_conduct::offers_are_taken();
    sg_conduct::offers_are_told_as_they_came();
    sg_conduct::refused_answers_show_causes();
    sg_conduct::refusals_show_causes();
    sg_conduct::manual_calls_are_taken();
    sg_conduct::answers_have_sessions();
    sg_conduct::answers_have_no_other_sessions();
    sg_conduct::sessions_stay_open();
    sg_conduct::told_texts_are_own();
    sg_conduct::own_keys_are_drawn();
    sg_conduct::calls_keep_their_places();
    sg_conduct::words_mean_what_they_say();
}

/// A run that tells everything as the gateway gives it is one of these.
pub fn a_plain_run_is_faithful()
    ensures { (events : List Event) → ArePassagesOf events (plain_passages events) }
{}
