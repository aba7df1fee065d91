// The first words of lines.

ghost use Rattle.std.specs.Prelude.{◌≡◌, ◌↔◌, Some, find};
ghost use Rattle.std.specs.Str.{bytes_eq};
ghost use Rattle.journal_text.specs.Verb.{verb_text, every_verb};
ghost use Rattle.journal_text.specs.declared.verb.EventVerb.{EventVerb};

/// The first word of a line, which says what happens.
#[derive(Clone, Copy, PartialEq, Eq)]
pub enum EventVerb {
    Accept,
    Client,
    ClientEnd,
    ClientReset,
    Connected,
    Refused,
    Server,
    ServerEnd,
    ServerReset,
    ClientTook,
    ServerTook,
    Tick,
    Turn,
    Run,
    Mark,
}

impl EventVerb {
    /// All of them.
    pub const ALL: [EventVerb; 15] = [
        EventVerb::Accept,
        EventVerb::Client,
        EventVerb::ClientEnd,
        EventVerb::ClientReset,
        EventVerb::Connected,
        EventVerb::Refused,
        EventVerb::Server,
        EventVerb::ServerEnd,
        EventVerb::ServerReset,
        EventVerb::ClientTook,
        EventVerb::ServerTook,
        EventVerb::Tick,
        EventVerb::Turn,
        EventVerb::Run,
        EventVerb::Mark,
    ];

    /// Its spelling.
    pub fn text(self) -> &'static [u8]
        ensures { result.now ≡ verb_text self }
    {
        match self {
            EventVerb::Accept => b"accept",
            EventVerb::Client => b"client",
            EventVerb::ClientEnd => b"client-end",
            EventVerb::ClientReset => b"client-reset",
            EventVerb::Connected => b"connected",
            EventVerb::Refused => b"refused",
            EventVerb::Server => b"server",
            EventVerb::ServerEnd => b"server-end",
            EventVerb::ServerReset => b"server-reset",
            EventVerb::ClientTook => b"client-took",
            EventVerb::ServerTook => b"server-took",
            EventVerb::Tick => b"tick",
            EventVerb::Turn => b"turn",
            EventVerb::Run => b"run",
            EventVerb::Mark => b"mark",
        }
    }
}

/// The verb of this spelling.
pub fn read_verb(text: &[u8]) -> Option<EventVerb>
    ensures { (verb : EventVerb) → (result ≡ Some verb) ↔ (text.now ≡ verb_text verb) }
{
    first_of_text(text)
}

fn first_of_text(text: &[u8]) -> Option<EventVerb>
    ensures { result ≡ find (λ verb. bytes_eq (verb_text verb) text.now) every_verb }
{
    EventVerb::ALL
        .iter()
        .copied()
        .find(|verb| verb.text() == text)
}
