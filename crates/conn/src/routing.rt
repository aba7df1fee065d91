// Where a connection goes that speaks HTTP, behind its events and messages.

ghost use Rattle.std.specs.Prelude.{◌≡◌, IfOk};
ghost use Rattle.irule_http.specs.Sent.{is_to_end};
ghost use Rattle.irule_http.specs.State.{expects_by};
ghost use Rattle.conn_trace.specs.Host.{http_known};
ghost use Rattle.conn_trace.specs.Http.{server_persisting, wanted_more};
ghost use Rattle.conn_trace.specs.Routing.{chosen, detaching, is_left, is_spent_link, resolved};
ghost use Rattle.conn_trace.specs.Routing.{same_addr, same_target, serves_it};
ghost use Rattle.conn_trace.specs.SentBodies.{opens};
ghost use Rattle.conn.specs.Ends.{is_up};
ghost use Rattle.conn.specs.Hosts.{seen_host};
ghost use Rattle.conn.specs.Stages.{asked_stage, failed_stage, gathering_stage, headed_stage, http_in};
ghost use Rattle.conn.specs.Stages.{message_stage, next_stage, request_data_stage, request_stage};
ghost use Rattle.conn.specs.Stages.{response_stage};
ghost use Rattle.conn.specs.Stages.{retired_stage, routed_stage};

use crate::ends::{Behind, Link};
use crate::host::RuleHost;
use crate::stage::{Finish, Stage};
use http_frames::{Body, BodyState};
use irule_http::{Http, Request, Response, client_closes};
use irule_net::{NetState, Target};
use px_bytes::{Addr, M, Side};

/// The most bytes that are gathered of a body.
const PAYLOAD_LIMIT: usize = 1_048_576;

/// Where it goes behind LB_FAILED, at which a rule may have answered the request.
pub(crate) fn behind_failed(http: &Option<Http>, reselects: bool) -> Stage
    ensures { let known = http_known http.now in
        result ≡ failed_stage known.answer reselects known }
{
    match http {
        Some(http) if http.answer.is_some() => Stage::Dropping(http.reader),
        _ if reselects => Stage::Choosing,
        _ => Stage::Finishing(Finish::Unselected),
    }
}

/// Where it goes behind HTTP_REQUEST. The body of a request that was answered and waits to be told to go on
/// never comes.
pub(crate) fn behind_request(link: Link, host: &RuleHost) -> Stage
    ensures { let known = http_in host.now in
        result ≡ request_stage known.answer (expects_by known.came) link host.now }
{
    let Some(http) = &host.http else {
        return asked(link, host);
    };
    match (http.answer.is_some(), expects(&http.came)) {
        (true, true) => Stage::Finishing(Finish::Closed),
        (true, false) => Stage::Dropping(http.reader),
        (false, true) => Stage::Continuing,
        (false, false) => asked(link, host),
    }
}

/// Where it goes behind HTTP_REQUEST_DATA.
pub(crate) fn behind_request_data(link: Link, host: &RuleHost) -> Stage
    ensures { result ≡ request_data_stage (http_in host.now).answer link host.now }
{
    match &host.http {
        Some(http) if http.answer.is_some() => Stage::Dropping(http.reader),
        _ => asked(link, host),
    }
}

/// A request goes on to its server, or its body is gathered first.
pub(crate) fn asked(link: Link, host: &RuleHost) -> Stage
    ensures { result ≡ asked_stage link host.now }
{
    match &host.http {
        Some(http) => gathered_first(Side::Client, http, routed(link, host)),
        None => routed(link, host),
    }
}

/// Where it goes behind HTTP_RESPONSE.
pub(crate) fn behind_response(http: &Option<Http>) -> Stage
    ensures { let known = http_known http.now in result ≡ response_stage known.answer known }
{
    match http {
        Some(http) if http.answer.is_some() => Stage::GivingUp(Behind::BehindMessage),
        Some(http) => gathered_first(Side::Server, http, Stage::Heading(Side::Server)),
        None => Stage::Heading(Side::Server),
    }
}

/// Where it goes behind a message of a side that was sent on whole.
pub(crate) fn behind_message(side: Side, host: &RuleHost) -> Stage
    ensures { result ≡ message_stage side host.now }
{
    match side {
        Side::Client => Stage::AtResponse,
        Side::Server if is_spent(host) => Stage::GivingUp(Behind::BehindMessage),
        Side::Server => behind_answer(&host.http),
    }
}

/// Where it goes behind the head of a side's message.
pub(crate) fn behind_head(side: Side, host: &RuleHost) -> Stage
    ensures { result ≡ headed_stage side host.now (http_in host.now).whole }
{
    match &host.http {
        Some(http) if !http.whole => Stage::Forwarding {
            side,
            reader: http.reader,
            standing: opens(http),
        },
        Some(_) => behind_message(side, host),
        None => Stage::Forwarding {
            side,
            reader: BodyState::Left(0),
            standing: false,
        },
    }
}

/// Where it goes once its server connection was given up.
pub(crate) fn behind_retired(behind: Behind, http: &Option<Http>) -> Stage
    ensures { result ≡ retired_stage behind (http_known http.now) }
{
    match behind {
        Behind::BeforeSelect => Stage::Choosing,
        Behind::BehindMessage => behind_answer(http),
    }
}

// To the server that is there, unless that is given up first, or another is selected.
fn routed(link: Link, host: &RuleHost) -> Stage
    ensures { result ≡ routed_stage (is_up link) (is_left (seen_host host.now)) }
{
    match (link.is_up(), is_left(host)) {
        (false, _) => Stage::Choosing,
        (true, true) => Stage::GivingUp(Behind::BeforeSelect),
        (true, false) => Stage::AtReuse,
    }
}

// Unless so much of the body of its message is wanted first.
fn gathered_first(side: Side, http: &Http, behind: Stage) -> Stage
    ensures { result ≡ gathering_stage side (wanted_more http.now) http.now behind }
{
    match wanted_more(http) {
        0 => behind,
        wanted => Stage::Gathering {
            side,
            wanted,
            reader: http.reader,
        },
    }
}

// Behind a request that was answered.
fn behind_answer(http: &Option<Http>) -> Stage
    ensures { result ≡ next_stage (http_known http.now) }
{
    match http {
        Some(http) => Stage::next(client_closes(http)),
        None => Stage::next(true),
    }
}

fn expects(came: &Option<Request>) -> bool
    ensures { result ≡ expects_by came.now }
{
    match came {
        Some(request) => request.expects,
        None => false,
    }
}

// How many bytes more of the body a rule collects.
fn wanted_more(http: &Http) -> usize
    ensures { result ≡ wanted_more http.now }
{
    if http.whole {
        return 0;
    }
    http.collect.min(PAYLOAD_LIMIT.saturating_sub(http.payload.as_bytes().len()))
}

// Whether a chunk stands open behind what was gathered.
fn opens(http: &Http) -> bool
    ensures { result ≡ opens http.now }
{
    http.gathered.is_some() && !http.whole && matches!(http.reader, BodyState::Chunk(_))
}

// A rule gave the server connection up in this request or response.
fn is_detaching(host: &RuleHost) -> bool
    ensures { result ≡ detaching (seen_host host.now) }
{
    match &host.http {
        Some(http) => http.detaches || host.net.wishes.detaches,
        None => host.net.wishes.detaches,
    }
}

// Before it is used again the open server connection is given up.
fn is_left(host: &RuleHost) -> bool
    ensures { result ≡ is_left (seen_host host.now) }
{
    is_detaching(host) || !is_served(host)
}

// Behind a response it is given up.
fn is_spent(host: &RuleHost) -> bool
    ensures { result ≡ is_spent_link (seen_host host.now) }
{
    match &host.http {
        Some(http) => is_detaching(host) || !persists(&http.answered_by),
        None => is_detaching(host),
    }
}

fn persists(response: &Option<Response>) -> bool
    ensures { result ≡ server_persisting response.now }
{
    match response {
        Some(response) => response.persists && !is_to_end(response.body),
        None => true,
    }
}

fn is_to_end(body: Body) -> bool
    ensures { result ≡ is_to_end body }
{
    matches!(body, Body::ToEnd)
}

// The server connection was made by what the rules chose last.
fn is_served(host: &RuleHost) -> bool
    ensures { let h = seen_host host.now in
        result ≡ serves_it (http_in host.now).serves (chosen h) }
{
    match &host.http {
        Some(http) => serves(&http.serves, &host.net),
        None => false,
    }
}

fn serves(served: &Option<Target>, net: &NetState) -> bool
    ensures { result ≡ serves_it served.now (resolved net.now.pool net.now.target) }
{
    match (served, &net.target) {
        (Some(Target::PoolOf(name)), Target::Default) => name.as_bytes() == net.pool.as_bytes(),
        (Some(_), Target::Default) | (None, _) => false,
        (Some(served), chosen) => is_same(served, chosen),
    }
}

// Two choices of one server.
fn is_same(one: &Target, other: &Target) -> bool
    ensures { result ≡ same_target one.now other.now }
{
    match (one, other) {
        (Target::PoolOf(a), Target::PoolOf(b)) => a.as_bytes() == b.as_bytes(),
        (Target::MemberOf(pool, a), Target::MemberOf(other, b)) => {
            pool.as_bytes() == other.as_bytes() && is_same_addr(*a, *b)
        }
        (Target::NodeAt(a), Target::NodeAt(b)) => is_same_addr(*a, *b),
        _ => false,
    }
}

fn is_same_addr(a: Addr, b: Addr) -> bool
    ensures { result ≡ same_addr a b }
{
    a.ip == b.ip && a.port == b.port
}

/// The choice of the rules, with the virtual server's pool by its name.
pub(crate) fn chosen(net: &NetState) -> M<Target>
    ensures { IfOk result (λ target. target ≡ resolved net.now.pool net.now.target) }
{
    Ok(match &net.target {
        Target::Default => Target::PoolOf(net.pool.copy()?),
        Target::PoolOf(name) => Target::PoolOf(name.copy()?),
        Target::MemberOf(name, addr) => Target::MemberOf(name.copy()?, *addr),
        Target::NodeAt(addr) => Target::NodeAt(*addr),
    })
}
