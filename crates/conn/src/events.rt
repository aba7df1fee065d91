// The events that a connection comes to.

ghost use Rattle.std.specs.Prelude.{◌≡◌};
ghost use Rattle.conn.specs.Events.{data_at, event_of, gathered_at, is_closed, is_closing, is_data};
ghost use Rattle.conn.specs.Events.{is_event_of};

use event_order::EventName;
use px_bytes::Side;

/// An event of a connection.
#[derive(Clone, Copy, PartialEq, Eq)]
pub enum At {
    /// Its client was accepted.
    Accepted,
    /// A collect of its client's bytes was met.
    ClientData,
    /// A server was selected.
    Selected,
    /// No server was found.
    Failed,
    /// The server took the connection.
    Connected,
    /// A request's head was read.
    Request,
    /// Bytes of a request's body that a rule collects were gathered.
    RequestData,
    /// The head of a response was read.
    Response,
    /// Bytes of a response's body that a rule collects were gathered.
    ResponseData,
    /// A collect of its server's bytes was met.
    ServerData,
    /// Its server connection is given up.
    Leaving,
    /// It is closed to its server.
    ServerClosed,
    /// It is closed to its client.
    Closed,
}

impl At {
    /// The event's name.
    pub fn name(self) -> EventName
        ensures { result ≡ event_of self }
    {
        match self {
            At::Accepted => EventName::ClientAccepted,
            At::ClientData => EventName::ClientData,
            At::Selected => EventName::LbSelected,
            At::Failed => EventName::LbFailed,
            At::Connected => EventName::ServerConnected,
            At::Request => EventName::HttpRequest,
            At::RequestData => EventName::HttpRequestData,
            At::ServerData => EventName::ServerData,
            At::Response => EventName::HttpResponse,
            At::ResponseData => EventName::HttpResponseData,
            At::Leaving | At::ServerClosed => EventName::ServerClosed,
            At::Closed => EventName::ClientClosed,
        }
    }

    /// It runs once the connection has finished.
    pub fn is_closed(self) -> bool
        ensures { result ≡ is_closed self }
    {
        matches!(self, At::ServerClosed | At::Closed)
    }

    /// It runs as a connection is closed, or once it has finished.
    pub fn is_closing(self) -> bool
        ensures { result ≡ is_closing self }
    {
        matches!(self, At::Leaving | At::ServerClosed | At::Closed)
    }

    /// The event of the bytes that a collect of a side asked for.
    pub fn data(side: Side) -> At
        ensures { result ≡ data_at side }
    {
        match side {
            Side::Client => At::ClientData,
            Side::Server => At::ServerData,
        }
    }

    /// The event of the bytes of a body that a rule collects.
    pub fn gathered(side: Side) -> At
        ensures { result ≡ gathered_at side }
    {
        match side {
            Side::Client => At::RequestData,
            Side::Server => At::ResponseData,
        }
    }

    /// Collected bytes of a side are there.
    pub fn is_data(self) -> bool
        ensures { result ≡ is_data self }
    {
        matches!(self, At::ClientData | At::ServerData)
    }

    /// Bytes of this side are collected at it, or are to be.
    pub fn is_event_of(self, side: Side) -> bool
        ensures { result ≡ is_event_of side self }
    {
        match side {
            Side::Client => matches!(self, At::Accepted | At::ClientData),
            Side::Server => matches!(self, At::Connected | At::ServerData),
        }
    }
}
