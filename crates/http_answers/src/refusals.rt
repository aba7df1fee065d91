// What a client is sent that no rule answers.

ghost use Rattle.std.specs.Prelude.{◌≡◌};
ghost use Rattle.http_answers.specs.Refusals.{continue_text, refusal};

use px_bytes::HttpFault;

const BAD_REQUEST: &[u8] =
    b"HTTP/1.0 400 Bad Request\r\nServer: BigIP\r\nConnection: close\r\nContent-Length: 0\r\n\r\n";

const NOT_IMPLEMENTED: &[u8] =
    b"HTTP/1.0 501 Not Implemented\r\nServer: BigIP\r\nConnection: close\r\nContent-Length: 0\r\n\r\n";

/// The answer to a request with a fault, which closes the connection: 501 where its method isn't served, else
/// 400. Faults of responses, and the end of a stream in a body, aren't answered.
pub fn refusal(fault: HttpFault) -> &'static [u8]
    ensures { result.now ≡ refusal fault }
{
    match fault {
        HttpFault::Method => NOT_IMPLEMENTED,
        _ => BAD_REQUEST,
    }
}

/// What tells a client that waits for it to send the content of its request.
pub fn continue_text() -> &'static [u8]
    ensures { result.now ≡ continue_text }
{
    b"HTTP/1.1 100 Continue\r\n\r\n"
}
