// The bytes of an answer.

ghost use Rattle.std.specs.Prelude.{◌≡◌, ◌<◌, IfOk};
ghost use Rattle.http_answers.specs.Answers.{composed, content_sent, is_head_request};
ghost use Rattle.http_answers.specs.Seen.{seen};

use crate::answer::{Answer, is_bodiless, put_head};
use http_heads::RequestHead;
use px_bytes::{M, Text};
use std::alloc::Global;

/// The most bytes of a head.
const HEAD_LIMIT: usize = 65_536;

fn is_head_request(head: &Option<RequestHead>) -> bool
    ensures { result ≡ is_head_request head.now }
{
    match head {
        Some(head) => head.method.as_bytes() == b"HEAD".as_slice(),
        None => false,
    }
}

// The content that goes out, by the request.
fn content_sent<'a>(request: &Option<RequestHead>, answer: &Answer<'a>) -> &'a [u8]
    ensures { result.now ≡ content_sent request.now (seen answer.now) }
{
    if is_bodiless(answer.code) || is_head_request(request) {
        return &[];
    }
    answer.content
}

/// The bytes of an answer, by the request; none where its head is beyond its limits.
pub fn composed(
    alloc: Global,
    request: &Option<RequestHead>,
    answer: &Answer<'_>,
) -> M<Option<Text>>
    requires { answer.now.code < 1000 }
    ensures { IfOk result (λ text. text ≡ composed request.now (seen answer.now)) }
{
    let mut text = Vec::new(alloc);
    let few = put_head(alloc, &mut text, answer)?;
    if !few || text.len() > HEAD_LIMIT {
        return Ok(None);
    }
    text.extend_from_slice(content_sent(request, answer))?;
    Ok(Some(Text::from_vec(text)))
}
