// What holds of heads.

ghost use Rattle.http_heads.specs.Laws.{ForwardedRequestIsShort, ForwardedResponseIsShort};
ghost use Rattle.http_heads.specs.Laws.{RequestComesBack, RequestIsOne, RequestIsTrimmed};
ghost use Rattle.http_heads.specs.Laws.{RequestStaysShort, ResponseComesBack, ResponseIsOne};
ghost use Rattle.http_heads.specs.Laws.{ResponseIsTrimmed, ResponseStaysShort};
ghost use Rattle.http_heads.specs.Reading.{RequestIsRead, ResponseIsRead};

/// The law that bytes are at most one request head.
pub fn request_is_one()
    ensures { RequestIsOne }
{}

/// The law that bytes are at most one response head.
pub fn response_is_one()
    ensures { ResponseIsOne }
{}

/// The law that the request head that bytes are is the one that the definition reads.
pub fn request_is_read()
    ensures { RequestIsRead }
{}

/// The law that the response head that bytes are is the one that the definition reads.
pub fn response_is_read()
    ensures { ResponseIsRead }
{}

/// The law that what is written of a request's head whose values have no white space around them is read
/// as that very head.
pub fn request_comes_back()
    ensures { RequestComesBack }
{}

/// The same of responses.
pub fn response_comes_back()
    ensures { ResponseComesBack }
{}

/// The law that the values of a request's head that was read have no white space around them.
pub fn request_is_trimmed()
    ensures { RequestIsTrimmed }
{}

/// The same of responses.
pub fn response_is_trimmed()
    ensures { ResponseIsTrimmed }
{}

/// The law that a request's head that was received has at most 100 fields, and at most 212 bytes more as it
/// is written than as it came.
pub fn request_stays_short()
    ensures { RequestStaysShort }
{}

/// The same of responses.
pub fn response_stays_short()
    ensures { ResponseStaysShort }
{}

/// The law that a request's head has at most 44 bytes more as it is forwarded.
pub fn forwarded_request_is_short()
    ensures { ForwardedRequestIsShort }
{}

/// The same of responses.
pub fn forwarded_response_is_short()
    ensures { ForwardedResponseIsShort }
{}
