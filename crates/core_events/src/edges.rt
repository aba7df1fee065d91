// Where the two ends of a connection stand for the outside.

ghost use Rattle.std.specs.Prelude.{◌≡◌};
ghost use Rattle.core_events.specs.Edges.{accepted_edges, answered_edge, edge, edge_closes};
ghost use Rattle.core_events.specs.Edges.{edge_ends};
ghost use Rattle.core_events.specs.Edges.{edge_of, edge_resets, edges_by, may_send, may_take};
ghost use Rattle.core_events.specs.Edges.{with_edge};

use crate::note::Note;
use px_bytes::Side;

/// How far an end of a connection is.
#[derive(Clone, Copy, PartialEq, Eq)]
pub enum EdgeState {
    /// There is none.
    Absent,
    /// It was asked for.
    Connecting,
    Open,
    /// Nothing more is sent to it.
    Closed,
}

/// An end of a connection.
#[derive(Clone, Copy, PartialEq, Eq)]
pub struct Edge {
    pub state: EdgeState,
    /// Nothing more comes of it.
    pub ended: bool,
    pub reset: bool,
    /// What is sent to it has ended.
    pub half: bool,
}

/// Both ends of a connection.
#[derive(Clone, Copy, PartialEq, Eq)]
pub struct Edges {
    pub client: Edge,
    pub server: Edge,
}

impl Edge {
    pub fn new(state: EdgeState) -> Edge
        ensures { result ≡ edge state }
    {
        Edge {
            state,
            ended: false,
            reset: false,
            half: false,
        }
    }

    /// Bytes or an end may come of it.
    pub fn may_send(self) -> bool
        ensures { result ≡ may_send self }
    {
        matches!(self.state, EdgeState::Open) && !(self.ended || self.reset)
    }

    /// A reset of it or a took-count may come.
    pub fn may_take(self) -> bool
        ensures { result ≡ may_take self }
    {
        matches!(self.state, EdgeState::Open) && !self.reset
    }
}

impl Edges {
    /// Those of a connection that was accepted.
    pub fn accepted() -> Edges
        ensures { result ≡ accepted_edges }
    {
        Edges {
            client: Edge::new(EdgeState::Open),
            server: Edge::new(EdgeState::Absent),
        }
    }

    pub fn of(self, side: Side) -> Edge
        ensures { result ≡ edge_of side self }
    {
        match side {
            Side::Client => self.client,
            Side::Server => self.server,
        }
    }

    /// With another one on a side.
    fn with(self, side: Side, edge: Edge) -> Edges
        ensures { result ≡ with_edge side edge self }
    {
        match side {
            Side::Client => Edges {
                client: edge,
                server: self.server,
            },
            Side::Server => Edges {
                client: self.client,
                server: edge,
            },
        }
    }

    /// A side ended.
    pub fn ends(self, side: Side) -> Edges
        ensures { result ≡ edge_ends side self }
    {
        let mut edge = self.of(side);
        edge.ended = true;
        self.with(side, edge)
    }

    /// A side was reset.
    pub fn resets(self, side: Side) -> Edges
        ensures { result ≡ edge_resets side self }
    {
        let mut edge = self.of(side);
        edge.reset = true;
        self.with(side, edge)
    }

    /// The server that was asked for took the connection, or refused.
    pub fn connects(self, made: bool) -> Edges
        ensures { result ≡ record self { server = answered_edge made } }
    {
        let state = if made {
            EdgeState::Open
        } else {
            EdgeState::Absent
        };
        self.with(Side::Server, Edge::new(state))
    }

    /// After a note of the connection.
    pub fn noted(self, note: &Note) -> Edges
        ensures { result ≡ edges_by note.now self }
    {
        match note {
            Note::Connect { .. } => self.with(Side::Server, Edge::new(EdgeState::Connecting)),
            Note::HalfClose { side, .. } => {
                let mut edge = self.of(*side);
                edge.half = true;
                self.with(*side, edge)
            }
            Note::CloseServer { .. } => self.closes(Side::Server),
            Note::CloseClient { .. } => self.closes(Side::Client),
            _ => self,
        }
    }

    fn closes(self, side: Side) -> Edges
        ensures { result ≡ edge_closes side self }
    {
        let mut edge = self.of(side);
        edge.state = EdgeState::Closed;
        self.with(side, edge)
    }
}
