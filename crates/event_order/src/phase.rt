// The phases of a connection.

ghost use Rattle.std.specs.Prelude.{◌≡◌, ◌↔◌, IsTrue, Contains};
ghost use Rattle.event_order.specs.Phase.{MayFollow, chosen_phase, next_phases, is_live};

/// Where a connection stands.
#[derive(Clone, Copy, PartialEq, Eq)]
pub enum Phase {
    /// A client has connected.
    Accepted,
    /// Bytes of the client are held for a rule.
    Collect,
    /// The head of a request is awaited.
    Request,
    /// The body of a request is held for a rule.
    Gather,
    /// A later request may go to the server of the earlier one.
    Reuse,
    /// A server is to be chosen.
    Select,
    /// The server's answer to the connection is awaited.
    Connect,
    /// Bytes go both ways.
    Relay,
    /// A request goes to the server.
    Passing,
    /// The response comes from the server.
    Response,
    /// A rule has answered: what is left of the request is dropped.
    Answered,
    /// The connection finishes.
    Finish,
    /// What is queued is still taken.
    Drain,
    /// The connection is over.
    Over,
}

/// What happened in a phase.
#[derive(Clone, Copy, PartialEq, Eq)]
pub enum Happening {
    /// The phase's conditions chose this one.
    Goes(Phase),
}

impl Phase {
    /// Where it leads when nothing ends the connection early.
    pub fn next(self) -> &'static [Phase]
        ensures { result.now ≡ next_phases self }
    {
        match self {
            Phase::Accepted => &[Phase::Collect, Phase::Select, Phase::Request],
            Phase::Collect => &[Phase::Collect, Phase::Select],
            Phase::Request => &[
                Phase::Gather,
                Phase::Answered,
                Phase::Select,
                Phase::Reuse,
                Phase::Finish,
            ],
            Phase::Gather => &[Phase::Gather, Phase::Answered, Phase::Select, Phase::Reuse],
            Phase::Reuse => &[Phase::Passing, Phase::Select],
            Phase::Select => &[
                Phase::Connect,
                Phase::Select,
                Phase::Answered,
                Phase::Finish,
            ],
            Phase::Connect => &[
                Phase::Relay,
                Phase::Passing,
                Phase::Connect,
                Phase::Select,
                Phase::Answered,
                Phase::Finish,
            ],
            Phase::Relay => &[Phase::Relay, Phase::Finish],
            Phase::Passing => &[Phase::Response],
            Phase::Response | Phase::Answered => &[Phase::Request, Phase::Finish],
            Phase::Finish => &[Phase::Drain],
            Phase::Drain => &[Phase::Over],
            Phase::Over => &[],
        }
    }

    fn is_live(self) -> bool
        ensures { result ≡ is_live self }
    {
        !matches!(self, Phase::Finish | Phase::Drain | Phase::Over)
    }

    fn leads_to(self, next: Phase) -> bool
        ensures { IsTrue result ↔ Contains (next_phases self) next }
    {
        self.next().contains(&next)
    }

    fn may_go(self, next: Phase) -> bool
        ensures { IsTrue result ↔ MayFollow self next }
    {
        self.leads_to(next) || (next == Phase::Finish && self.is_live())
    }
}

/// The phase after what happened: the one that was chosen, where it may follow, else the same.
pub fn after(phase: Phase, happening: Happening) -> Phase
    ensures goes { MayFollow phase (chosen_phase happening) → result ≡ chosen_phase happening }
    ensures stays { ¬ MayFollow phase (chosen_phase happening) → result ≡ phase }
{
    let Happening::Goes(next) = happening;
    if phase.may_go(next) { next } else { phase }
}
