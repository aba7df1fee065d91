// The events of a rule.

ghost use Rattle.std.specs.Prelude.{◌≡◌, ◌↔◌, Some, find};
ghost use Rattle.std.specs.Str.{bytes_eq};
ghost use Rattle.event_order.specs.Event.{event_text, every_event};
ghost use Rattle.event_order.specs.declared.event.EventName.{EventName};

/// An event, at which the bodies of rules run.
#[derive(Clone, Copy, PartialEq, Eq)]
pub enum EventName {
    RuleInit,
    ClientAccepted,
    ClientData,
    ClientClosed,
    ServerConnected,
    ServerData,
    ServerClosed,
    LbSelected,
    LbFailed,
    HttpRequest,
    HttpRequestData,
    HttpResponse,
    HttpResponseData,
}

impl EventName {
    /// All of them.
    pub const ALL: [EventName; 13] = [
        EventName::RuleInit,
        EventName::ClientAccepted,
        EventName::ClientData,
        EventName::ClientClosed,
        EventName::ServerConnected,
        EventName::ServerData,
        EventName::ServerClosed,
        EventName::LbSelected,
        EventName::LbFailed,
        EventName::HttpRequest,
        EventName::HttpRequestData,
        EventName::HttpResponse,
        EventName::HttpResponseData,
    ];

    /// Its name in a rule.
    pub fn text(self) -> &'static [u8]
        ensures { result.now ≡ event_text self }
    {
        match self {
            EventName::RuleInit => b"RULE_INIT",
            EventName::ClientAccepted => b"CLIENT_ACCEPTED",
            EventName::ClientData => b"CLIENT_DATA",
            EventName::ClientClosed => b"CLIENT_CLOSED",
            EventName::ServerConnected => b"SERVER_CONNECTED",
            EventName::ServerData => b"SERVER_DATA",
            EventName::ServerClosed => b"SERVER_CLOSED",
            EventName::LbSelected => b"LB_SELECTED",
            EventName::LbFailed => b"LB_FAILED",
            EventName::HttpRequest => b"HTTP_REQUEST",
            EventName::HttpRequestData => b"HTTP_REQUEST_DATA",
            EventName::HttpResponse => b"HTTP_RESPONSE",
            EventName::HttpResponseData => b"HTTP_RESPONSE_DATA",
        }
    }
}

/// The event of this name.
pub fn read_event(text: &[u8]) -> Option<EventName>
    ensures { (e : EventName) → (result ≡ Some e) ↔ (text.now ≡ event_text e) }
{
    first_of_text(text)
}

fn first_of_text(text: &[u8]) -> Option<EventName>
    ensures { result ≡ find (λ e. bytes_eq (event_text e) text.now) every_event }
{
    EventName::ALL
        .iter()
        .copied()
        .find(|event| event.text() == text)
}
