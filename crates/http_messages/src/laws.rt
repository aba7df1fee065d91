// What holds of messages that were read.

ghost use Rattle.http_messages.specs.Laws.{RequestsAreShort, ResponsesAreShort};

/// The law that the head of a request that was read has at most 100 fields, and at most 212 bytes more as
/// it is written than as it came.
pub fn requests_are_short()
    ensures { RequestsAreShort }
{}

/// The same of responses.
pub fn responses_are_short()
    ensures { ResponsesAreShort }
{}
