// The reasons of answers.

ghost use Rattle.std.specs.Prelude.{◌≡◌};
ghost use Rattle.http_answers.specs.Answers.{reason_of};

/// The reason of a code (RFC 9110, 15); `Status` where it has none here.
#[tactic(auto, unfolding(crate::specs::Answers::reason_of))]
pub(crate) fn reason_of(code: u16) -> &'static [u8]
    ensures { result.now ≡ reason_of code }
{
    match code {
        200 => b"OK",
        201 => b"Created",
        202 => b"Accepted",
        204 => b"No Content",
        301 => b"Moved Permanently",
        302 => b"Found",
        303 => b"See Other",
        304 => b"Not Modified",
        307 => b"Temporary Redirect",
        308 => b"Permanent Redirect",
        400 => b"Bad Request",
        401 => b"Unauthorized",
        403 => b"Forbidden",
        404 => b"Not Found",
        405 => b"Method Not Allowed",
        429 => b"Too Many Requests",
        500 => b"Internal Server Error",
        501 => b"Not Implemented",
        502 => b"Bad Gateway",
        503 => b"Service Unavailable",
        504 => b"Gateway Timeout",
        _ => b"Status",
    }
}
