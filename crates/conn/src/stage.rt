// Where a connection stands.

ghost use Rattle.std.specs.Prelude.{◌≡◌};
ghost use Rattle.conn.specs.Stages.{accepted_stage, after_stage, cause_for, connected_stage};
ghost use Rattle.conn.specs.Stages.{connecting_stage, data_stage, dropped_in, ended_stage, failed};
ghost use Rattle.conn.specs.Stages.{goes_on_stage, has_finished, in_event_of, is_asking};
ghost use Rattle.conn.specs.Stages.{is_draining, is_relaying, leaving_stage, next_by, unless_ended};

use crate::ends::{Behind, Link};
use crate::events::At;
use crate::host::RuleHost;
use crate::routing::{behind_failed, behind_request, behind_request_data, behind_response};
use core_events::{Cause, CutReason};
use http_frames::BodyState;
use irule_net::{Asks, Ending, Selected};
use px_bytes::{Addr, FaultKind, HttpFault, Side, Text};

/// Why a connection finishes.
#[derive(Clone, Copy, PartialEq, Eq)]
pub enum Finish {
    /// Both ends closed, or a rule closed it.
    Closed,
    /// A rule rejected it.
    Rejected,
    /// No server could be selected.
    Unselected,
    /// A fault that no body caught.
    Fault(FaultKind),
    /// A request or its body that can't be read.
    Http(HttpFault),
    /// A reset.
    Cut(CutReason),
}

impl Finish {
    pub fn cause(self) -> Cause
        ensures { result ≡ cause_for self }
    {
        match self {
            Finish::Closed => Cause::Closed,
            Finish::Rejected => Cause::Rejected,
            Finish::Unselected => Cause::Unselected,
            Finish::Fault(kind) => Cause::Tcl(kind),
            Finish::Http(fault) => Cause::Http(fault),
            Finish::Cut(reason) => Cause::Cut(reason),
        }
    }
}

/// Where a connection stands.
#[derive(Drop)]
pub enum Stage {
    /// At the gate before the bodies of an event.
    Gated {
        at: At,
    },
    /// The body of this number runs.
    Running {
        at: At,
        number: usize,
    },
    /// It waits for the reply to a shared call.
    Asking {
        at: At,
        number: usize,
    },
    /// A body left a fault uncaught, whose line is to be logged; `next` is the number of the body
    /// behind it.
    Failing {
        at: At,
        next: usize,
        kind: FaultKind,
        line: Text,
    },
    /// A server is to be selected.
    Choosing,
    /// It waits for the reply that selects one.
    Selecting,
    /// The reply came, and spells this address or none.
    Chosen(Option<Addr>),
    /// The server is to be asked for a connection.
    Connecting(Addr),
    /// It was asked.
    Answering(Addr),
    /// The client's bytes are collected, and there is no server yet.
    Collecting,
    /// The client's next request is to be read.
    AtHead,
    /// The client is to be told to go on with its request.
    Continuing,
    /// So many bytes more of the body of a side's message are to be gathered, whose reader stands here.
    Gathering {
        side: Side,
        wanted: usize,
        reader: BodyState,
    },
    /// The server connection is to be used again, or not.
    AtReuse,
    /// It is to be given up.
    GivingUp(Behind),
    /// Its closing event has run.
    Retiring(Behind),
    /// The head of a side's message is to be sent on.
    Heading(Side),
    /// The units of its body are to be sent on, whose reader stands here; a chunk stands open or not.
    Forwarding {
        side: Side,
        reader: BodyState,
        standing: bool,
    },
    /// The server's next response is to be read.
    AtResponse,
    /// What is left of the body of an answered request is to be dropped.
    Dropping(BodyState),
    /// The client's bytes that were released before there was a server are to go to it.
    Releasing,
    /// Bytes are passed on both ways, or collected. The sides take turns, and it is the turn of
    /// this one.
    Relaying(Side),
    /// It is to finish.
    Finishing(Finish),
    /// What is queued is to be taken.
    Draining,
    /// Memory was refused: nothing of it runs any more, and what is queued is to be dropped.
    OutOfMemory,
    /// It is over, and so many bytes were dropped.
    Dropped(usize),
}

impl Stage {
    /// Where a connection stands whose bodies of an event have ended. Behind the one that closes its
    /// server the next event comes.
    pub fn after(at: At, link: Link, host: &RuleHost) -> Stage
        ensures { result ≡ after_stage at link host.now }
    {
        match at {
            At::ServerClosed | At::Closed => Stage::Draining,
            At::Leaving => Stage::left(link),
            _ => Stage::open(at, link, host),
        }
    }

    // Its server connection is being given up: what rules wish there ends nothing.
    fn left(link: Link) -> Stage
        ensures { result ≡ leaving_stage link }
    {
        match link {
            Link::Leaving(behind) => Stage::Retiring(behind),
            _ => Stage::Choosing,
        }
    }

    // Unless rules ended it.
    fn open(at: At, link: Link, host: &RuleHost) -> Stage
        ensures { result ≡ unless_ended host.now.net.wishes.ends (goes_on_stage at link host.now) }
    {
        match host.net.wishes.ends {
            Some(ending) => Stage::ended(ending),
            None => Stage::going_on(at, link, host),
        }
    }

    fn ended(ending: Ending) -> Stage
        ensures { result ≡ ended_stage ending }
    {
        match ending {
            Ending::Rejects => Stage::Finishing(Finish::Rejected),
            Ending::Closes => Stage::Finishing(Finish::Closed),
        }
    }

    // Nothing ended the connection.
    fn going_on(at: At, link: Link, host: &RuleHost) -> Stage
        ensures { result ≡ goes_on_stage at link host.now }
    {
        let net = &host.net;
        match at {
            At::Accepted => Stage::behind_accepted(host.http.is_some(), net.client.asks),
            At::ClientData => Stage::behind_data(link.is_up(), net.wishes.released),
            At::Selected => Stage::connecting(&net.selected),
            At::Failed => behind_failed(&host.http, net.wishes.reselects),
            At::Connected => Stage::behind_connected(host.http.is_some(), net.loose.as_bytes()),
            At::Request => behind_request(link, host),
            At::RequestData => behind_request_data(link, host),
            At::Response | At::ResponseData => behind_response(&host.http),
            At::Leaving => Stage::left(link),
            At::ServerData => Stage::Relaying(Side::Client),
            At::ServerClosed | At::Closed => Stage::Draining,
        }
    }

    /// Where a connection stands behind a request that was answered, by whether that closes it.
    pub fn next(closes: bool) -> Stage
        ensures { result ≡ next_by closes }
    {
        if closes {
            return Stage::Finishing(Finish::Closed);
        }
        Stage::AtHead
    }

    fn behind_accepted(http: bool, asks: Asks) -> Stage
        ensures { result ≡ accepted_stage http asks }
    {
        match asks {
            _ if http => Stage::AtHead,
            Asks::NotAsked => Stage::Choosing,
            Asks::Stated(_) => Stage::Collecting,
        }
    }

    fn behind_data(up: bool, released: bool) -> Stage
        ensures { result ≡ data_stage up released }
    {
        match (up, released) {
            (true, _) => Stage::Relaying(Side::Server),
            (false, true) => Stage::Choosing,
            (false, false) => Stage::Collecting,
        }
    }

    fn behind_connected(http: bool, loose: &[u8]) -> Stage
        ensures { result ≡ connected_stage http loose.now }
    {
        match loose {
            _ if http => Stage::Heading(Side::Client),
            [] => Stage::Relaying(Side::Client),
            _ => Stage::Releasing,
        }
    }

    fn connecting(selected: &Option<Selected>) -> Stage
        ensures { result ≡ connecting_stage selected.now }
    {
        match selected {
            Some(server) => Stage::Connecting(server.addr),
            None => Stage::Finishing(Finish::Unselected),
        }
    }

    /// Where a connection stands to which memory was refused; one that is over stays so.
    pub fn failed(&self) -> Stage
        ensures { result ≡ failed self.now }
    {
        match self {
            Stage::Dropped(dropped) => Stage::Dropped(*dropped),
            _ => Stage::OutOfMemory,
        }
    }

    /// How many bytes were dropped.
    pub fn dropped(&self) -> usize
        ensures { result ≡ dropped_in self.now }
    {
        match self {
            Stage::Dropped(dropped) => *dropped,
            _ => 0,
        }
    }

    /// Whether it waits for a reply.
    pub fn is_asking(&self) -> bool
        ensures { result ≡ is_asking self.now }
    {
        match self {
            Stage::Asking { .. } | Stage::Selecting => true,
            _ => false,
        }
    }

    /// Whether it has finished.
    pub fn has_finished(&self) -> bool
        ensures { result ≡ has_finished self.now }
    {
        match self {
            Stage::Running { at, .. } | Stage::Asking { at, .. } | Stage::Failing { at, .. } => {
                at.is_closed()
            }
            Stage::Draining | Stage::OutOfMemory | Stage::Dropped(_) => true,
            _ => false,
        }
    }

    /// Whether only what is queued is left.
    pub fn is_draining(&self) -> bool
        ensures { result ≡ is_draining self.now }
    {
        match self {
            Stage::Draining => true,
            _ => false,
        }
    }

    /// Whether bytes are passed on, also at the gate of an event of collected bytes.
    pub fn is_relaying(&self, link: Link) -> bool
        ensures { result ≡ is_relaying self.now link }
    {
        match self {
            Stage::Relaying(_) => link.is_up(),
            Stage::Gated { at } => at.is_data() && link.is_up(),
            _ => false,
        }
    }

    /// Whether the bodies of an event run at which bytes of this side are collected, or are to.
    pub fn is_in_event_of(&self, side: Side) -> bool
        ensures { result ≡ in_event_of side self.now }
    {
        match self {
            Stage::Gated { at }
            | Stage::Running { at, .. }
            | Stage::Asking { at, .. }
            | Stage::Failing { at, .. } => at.is_event_of(side),
            _ => false,
        }
    }
}
