// Where the reader of a body stands.

ghost use Rattle.std.specs.Prelude.{◌≡◌};
ghost use Rattle.http_frames.specs.States.{after_unit, beginning, chunk_after};

use crate::unit::Unit;

/// How the length of a message's body is known: RFC 9112, 6.3.
#[derive(Clone, Copy, PartialEq, Eq)]
pub enum Body {
    Length(u64),
    Chunked,
    /// Up to the end of the stream.
    ToEnd,
    None,
}

/// Where the reader of a body stands.
#[derive(Clone, Copy, PartialEq, Eq)]
pub enum BodyState {
    /// So many bytes are left of a body of known length.
    Left(u64),
    /// Before the first chunk line.
    FirstLine,
    /// So many bytes are left of a chunk.
    Chunk(u64),
    /// Before the CRLF that closes a chunk, and the chunk line behind it.
    NextLine,
    ToEnd,
}

/// Where the reader stands before the first byte of a body.
pub fn start(body: Body) -> BodyState
    ensures { result ≡ beginning body }
{
    match body {
        Body::Length(size) => BodyState::Left(size),
        Body::Chunked => BodyState::FirstLine,
        Body::ToEnd => BodyState::ToEnd,
        Body::None => BodyState::Left(0),
    }
}

// So many bytes fewer of a chunk.
fn chunk_after(left: u64, taken: usize) -> BodyState
    ensures { result ≡ chunk_after left taken }
{
    match left.saturating_sub(taken as u64) {
        0 => BodyState::NextLine,
        left => BodyState::Chunk(left),
    }
}

/// Where the reader stands behind a unit that was found there. What is no unit of the state leaves it.
pub fn go_on(state: BodyState, unit: Unit) -> BodyState
    ensures { result ≡ after_unit state unit }
{
    match (state, unit) {
        (BodyState::Left(left), Unit::Piece(taken)) => {
            BodyState::Left(left.saturating_sub(taken as u64))
        }
        (BodyState::Chunk(left), Unit::Piece(taken)) => chunk_after(left, taken),
        (BodyState::FirstLine | BodyState::NextLine, Unit::ChunkLine { size, .. }) => {
            BodyState::Chunk(size)
        }
        (state, _) => state,
    }
}
