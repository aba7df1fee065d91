// What was gathered of a body, as it goes out behind its head.

ghost use Rattle.std.specs.Prelude.{◌≡◌, ◌++◌, IfOk, OnOk};
ghost use Rattle.conn_trace.specs.SentBodies.{behind_payload, payload_chunk, payload_part};

use crate::forward::{chunk_line, last_line};
use http_frames::{Body, BodyState};
use irule_http::Http;
use px_bytes::{M, Text};
use std::alloc::Global;

/// The payload of a message, where some of its body was gathered. In a chunked body it is one chunk, unless it is
/// empty, and the rest of a chunk that was cut begins with a line of its own.
pub(crate) fn push_payload(alloc: Global, text: &mut Text, http: &Http) -> M<()>
    ensures { OnOk result (text.new ≡ text.old ++ payload_part http.now) }
{
    match (http.gathered, http.body) {
        (None, _) => Ok(()),
        (Some(_), Body::Chunked) => {
            push_chunk(alloc, text, http.payload.as_bytes())?;
            text.push(behind_payload(alloc, http.whole, http.reader)?.as_bytes())
        }
        (Some(_), _) => text.push(http.payload.as_bytes()),
    }
}

fn push_chunk(alloc: Global, text: &mut Text, payload: &[u8]) -> M<()>
    ensures { OnOk result (text.new ≡ text.old ++ payload_chunk payload.now) }
{
    if payload.is_empty() {
        return Ok(());
    }
    text.push(chunk_line(alloc, false, payload.len() as u64)?.as_bytes())?;
    text.push(payload)?;
    text.push(b"\r\n")
}

fn behind_payload(alloc: Global, whole: bool, reader: BodyState) -> M<Text>
    ensures { IfOk result (λ text. text ≡ behind_payload whole reader) }
{
    match reader {
        _ if whole => last_line(alloc, false),
        BodyState::Chunk(size) => chunk_line(alloc, false, size),
        _ => Ok(Text::empty(alloc)),
    }
}
