//! HTTP commands: the host commands of a rule that begin with `HTTP::`.
#![tactic(auto)]

mod answers;
mod checks;
mod command;
mod edits;
mod faults;
mod form;
mod laws;
mod message;
mod payload;
mod room;
mod sent;
mod state;
mod steps;
mod told;
mod words;

pub use command::http_command;
pub use laws::{
    answered_once, answers_are_bounded, answers_are_counted, answers_go_alone, answers_read_back,
    faults_change_nothing, framing_is_kept, heads_fit, interim_heads_fit, keeps_message,
    payload_fits, sent_heads_fit, sent_request_is_read, sent_response_is_read, silent,
};
pub use sent::{client_closes, interim_head, sent_head};
pub use state::{Http, Request, Response};
