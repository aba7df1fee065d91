// What is known of a request and of its response.

ghost use Rattle.std.specs.Prelude.{◌≡◌};
ghost use Rattle.irule_http.specs.State.{begun, no_http};

use http_frames::{Body, BodyState};
use http_heads::{RequestHead, ResponseHead};
use irule_net::Target;
use px_bytes::Text;
use std::alloc::Global;

/// A request as it came: its head as rules see it, how the length of its body is known, whether the
/// client's connection persists by it, and whether the client waits to be told to go on.
#[derive(Drop)]
pub struct Request {
    pub head: RequestHead,
    pub body: Body,
    pub persists: bool,
    pub expects: bool,
}

/// A response as it came: its head as rules see it, how the length of its body is known, and whether
/// the server's connection persists by it.
#[derive(Drop)]
pub struct Response {
    pub head: ResponseHead,
    pub body: Body,
    pub persists: bool,
}

/// What a connection knows of the request at hand and of its response.
#[derive(Drop)]
pub struct Http {
    /// How many requests were read so far, at most 2^63 - 1.
    pub number: u64,
    pub came: Option<Request>,
    /// The request's head with what rules did to it.
    pub request: Option<RequestHead>,
    pub answered_by: Option<Response>,
    /// The response's head with what rules did to it; none outside its events.
    pub response: Option<ResponseHead>,
    /// How the length of the body of the message at hand is known.
    pub body: Body,
    /// Where its reader stands behind what was gathered.
    pub reader: BodyState,
    /// Whether it was read whole.
    pub whole: bool,
    /// How many bytes of it the event that runs collects.
    pub collect: usize,
    /// How many bytes of it were gathered, where some event gathered.
    pub gathered: Option<usize>,
    /// What was gathered, as rules left it.
    pub payload: Text,
    /// Whether a rule closes the client's connection.
    pub closes: bool,
    /// Whether a rule answered, and whether its answer closes the client's connection.
    pub answer: Option<bool>,
    /// How many bytes the bodies of the event sent to the client.
    pub made: usize,
    /// Whether an earlier event of the message gave the server's connection up.
    pub detaches: bool,
    /// The choice by which the open server's connection was selected.
    pub serves: Option<Target>,
}

impl Http {
    /// Nothing is known yet.
    pub fn new(alloc: Global) -> Http
        ensures { result ≡ no_http }
    {
        Http {
            number: 0,
            came: None,
            request: None,
            answered_by: None,
            response: None,
            body: Body::None,
            reader: BodyState::Left(0),
            whole: false,
            collect: 0,
            gathered: None,
            payload: Text::empty(alloc),
            closes: false,
            answer: None,
            made: 0,
            detaches: false,
            serves: None,
        }
    }

    /// An event begins: its bodies have asked for nothing and made nothing yet.
    pub fn begin(&mut self)
        ensures { self.new ≡ begun self.old }
    {
        self.collect = 0;
        self.made = 0;
    }
}
