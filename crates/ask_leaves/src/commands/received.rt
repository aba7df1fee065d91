// Messages as they come to rules.

use http_heads::{RequestHead, ResponseHead};
use http_messages::{request_of, response_of};
use irule_http::{Request, Response};
use px_bytes::Text;
use questions::Question;

/// A request as it came.
pub fn request(question: &mut Question<'_>, text: &Text) -> Option<Request> {
    request_of(question.alloc, text.as_bytes()).ok()
}

/// Its head as rules see it.
pub fn request_head(question: &mut Question<'_>, text: &Text) -> Option<RequestHead> {
    Some(request(question, text)?.head)
}

/// A response as it came, by the request that it answers.
pub fn response(question: &mut Question<'_>, text: &Text, asked: &Request) -> Option<Response> {
    response_of(question.alloc, Some(asked), text.as_bytes()).ok()
}

/// Its head as rules see it.
pub fn response_head(
    question: &mut Question<'_>,
    text: &Text,
    asked: &Request,
) -> Option<ResponseHead> {
    Some(response(question, text, asked)?.head)
}
