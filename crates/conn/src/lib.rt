//! One connection: the bodies of its rules by steps, a slice at a time.
#![tactic(auto)]

mod advance;
mod body;
mod body_step;
mod collect;
mod connect;
mod connection;
mod drop;
mod ends;
mod events;
mod finish;
mod forward;
mod gather;
mod head;
mod heading;
mod host;
mod laws;
mod made;
mod payload;
mod queue;
mod relay;
mod request;
mod response;
mod reuse;
mod routing;
mod run;
mod select;
mod settle;
mod setup;
mod stage;
mod turn;
mod uncaught;
mod unread;
mod without_memory;

pub use body::RunningBody;
pub use connection::Conn;
pub use ends::{Behind, ConnectionEnd, Ends, Link};
pub use events::At;
pub use host::{RuleHost, host_command};
pub use laws::{calls_continue, connection_continues};
pub use queue::Queue;
pub use settle::close;
pub use setup::{Handler, Place, Places, Setup, body_in};
pub use stage::{Finish, Stage};
pub use turn::ConnTurn;
