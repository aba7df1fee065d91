// Laws of requests that go on.

ghost use Rattle.forwarded_requests.specs.Bodies.{BodyIsOne};
ghost use Rattle.forwarded_requests.specs.Forwarded.{ForwardedIsOne, HeadsAreFramed};
ghost use Rattle.forwarded_requests.specs.Requests.{RequestIsOne};

/// A body at the front of a stream is one.
pub fn body_is_one()
    ensures { BodyIsOne }
{}

/// A request at the front of a stream is one.
pub fn request_is_one()
    ensures { RequestIsOne }
{}

/// The head of a request that is about to be sent says how long its body is.
pub fn heads_are_framed()
    ensures { HeadsAreFramed }
{}

/// What the server connection gets of a request that was sent on whole is one request.
pub fn forwarded_is_one()
    ensures { ForwardedIsOne }
{}
