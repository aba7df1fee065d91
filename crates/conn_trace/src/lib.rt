//! What one connection does, from its streams and recorded answers: the definition and its laws.
#![tactic(auto)]

mod host;
mod laws;
mod uncaught;

pub use host::is_there;
pub use laws::{
    choices_join, client_is_read, comes_where_it_arrives, cut_ends, cut_keeps_given, cut_waits,
    dropped_unfold, each_event_lengthens, event_stands, finished_stands, finishes_once,
    further_keeps_trace, gathered_at_once, gathered_unfold, given_is_due, half_close_stays,
    http_is_spoken, longer_input_keeps_trace, met_joins, met_more, next_is_same,
    next_is_same_on_replies, notes_tell_choices, notes_tell_cut, notes_tell_finish,
    others_are_not_heard, pending_is_bounded, phases_follow, replies_keep_trace, rest_is_cut,
    rest_is_cut_also, run_stands, selected_is_spelled, sent_is_counted, sent_is_output,
    sent_to_server, server_reset_ends, start_is_orderly, stopped_is_whole, taken_all_opens,
    trace_is_unfolding, unfoldings_agree, unfolds_behind, units_met, units_unfold,
    unread_stays_within, written_is_selected,
};
pub use uncaught::uncaught_line;
