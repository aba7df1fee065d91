// The events in which host commands may be called.

ghost use Rattle.std.specs.Prelude.{◌≡◌, ◌↔◌, IsTrue, Contains};
ghost use Rattle.event_order.specs.Command.{command_row};

use crate::{EventName, HostCommand};

const EVERY: &[EventName] = &[
    EventName::RuleInit,
    EventName::ClientAccepted,
    EventName::ClientData,
    EventName::ClientClosed,
    EventName::ServerConnected,
    EventName::ServerData,
    EventName::ServerClosed,
    EventName::LbSelected,
    EventName::LbFailed,
    EventName::HttpRequest,
    EventName::HttpRequestData,
    EventName::HttpResponse,
    EventName::HttpResponseData,
];

const STARTED: &[EventName] = &[
    EventName::ClientAccepted,
    EventName::ClientData,
    EventName::ClientClosed,
    EventName::ServerConnected,
    EventName::ServerData,
    EventName::ServerClosed,
    EventName::LbSelected,
    EventName::LbFailed,
    EventName::HttpRequest,
    EventName::HttpRequestData,
    EventName::HttpResponse,
    EventName::HttpResponseData,
];

const CHOOSING: &[EventName] = &[
    EventName::ClientAccepted,
    EventName::ClientData,
    EventName::HttpRequest,
    EventName::HttpRequestData,
];

const ENDING: &[EventName] = &[
    EventName::LbSelected,
    EventName::LbFailed,
    EventName::ClientAccepted,
    EventName::ClientData,
    EventName::ServerConnected,
    EventName::ServerData,
    EventName::HttpRequest,
    EventName::HttpRequestData,
    EventName::HttpResponse,
    EventName::HttpResponseData,
];

const CLOSING: &[EventName] = &[
    EventName::ClientAccepted,
    EventName::ClientData,
    EventName::ServerConnected,
    EventName::ServerData,
    EventName::HttpRequest,
    EventName::HttpRequestData,
    EventName::HttpResponse,
    EventName::HttpResponseData,
];

const STREAM: &[EventName] = &[
    EventName::ClientAccepted,
    EventName::ClientData,
    EventName::ServerConnected,
    EventName::ServerData,
];

const CHOSEN: &[EventName] = &[
    EventName::LbSelected,
    EventName::ServerConnected,
    EventName::ServerData,
    EventName::HttpResponse,
    EventName::HttpResponseData,
    EventName::ServerClosed,
    EventName::ClientClosed,
];

const FAILED: &[EventName] = &[EventName::LbFailed];

const HTTP: &[EventName] = &[
    EventName::HttpRequest,
    EventName::HttpRequestData,
    EventName::HttpResponse,
    EventName::HttpResponseData,
];

const TARGET: &[EventName] = &[
    EventName::HttpRequest,
    EventName::HttpRequestData,
    EventName::LbSelected,
    EventName::LbFailed,
    EventName::ServerConnected,
    EventName::ServerData,
];

const HEAD: &[EventName] = &[
    EventName::HttpResponse,
    EventName::HttpResponseData,
    EventName::HttpRequest,
    EventName::HttpRequestData,
    EventName::LbSelected,
    EventName::LbFailed,
    EventName::ServerConnected,
    EventName::ServerData,
];

const RESPONSE: &[EventName] = &[EventName::HttpResponse, EventName::HttpResponseData];

const BODY: &[EventName] = &[EventName::HttpRequestData, EventName::HttpResponseData];

const ANSWERING: &[EventName] = &[
    EventName::LbFailed,
    EventName::HttpRequest,
    EventName::HttpRequestData,
    EventName::HttpResponse,
    EventName::HttpResponseData,
];

impl HostCommand {
    /// The events in which one of its forms at least may be called.
    pub fn events(self) -> &'static [EventName]
        ensures { result.now ≡ (command_row self).events }
    {
        match self {
            HostCommand::Log | HostCommand::Class => EVERY,
            HostCommand::Table
            | HostCommand::After
            | HostCommand::ActiveMembers
            | HostCommand::Clock
            | HostCommand::IpClientAddr
            | HostCommand::TcpClientPort
            | HostCommand::LbServer => STARTED,
            HostCommand::Pool | HostCommand::Node => CHOOSING,
            HostCommand::Reject | HostCommand::Drop => ENDING,
            HostCommand::TcpClose => CLOSING,
            HostCommand::TcpCollect
            | HostCommand::TcpRelease
            | HostCommand::TcpRespond
            | HostCommand::TcpPayload => STREAM,
            HostCommand::IpServerAddr => CHOSEN,
            HostCommand::LbReselect => FAILED,
            HostCommand::LbDetach
            | HostCommand::HttpCollect
            | HostCommand::HttpRelease
            | HostCommand::HttpClose => HTTP,
            HostCommand::HttpUri | HostCommand::HttpPath => TARGET,
            HostCommand::HttpQuery
            | HostCommand::HttpMethod
            | HostCommand::HttpHost
            | HostCommand::HttpRequestNum
            | HostCommand::HttpVersion
            | HostCommand::HttpHeader
            | HostCommand::HttpCookie => HEAD,
            HostCommand::HttpStatus => RESPONSE,
            HostCommand::HttpPayload => BODY,
            HostCommand::HttpRespond | HostCommand::HttpRedirect => ANSWERING,
        }
    }

    /// Whether one of its forms at least may be called in the event.
    pub fn is_allowed(self, event: EventName) -> bool
        ensures { IsTrue result ↔ Contains (command_row self).events event }
    {
        self.events().contains(&event)
    }
}
