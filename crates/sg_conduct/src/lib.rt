//! What a gateway does in every run, in words of its events and of its journal.
#![tactic(auto)]

mod laws;

pub use laws::{
    answers_have_no_other_sessions, answers_have_sessions, calls_keep_their_places,
    calls_were_heard, datagrams_are_settled, drops_show_causes, manual_calls_are_taken,
    offers_are_taken, offers_are_told_as_they_came, other_calls_stay, own_keys_are_drawn,
    refusals_show_causes, refused_answers_show_causes, sessions_have_done_what_was_done,
    sessions_stay_open, told_texts_are_own, what_is_new_leaves, what_is_opened_was_sealed,
    words_mean_what_they_say,
};
