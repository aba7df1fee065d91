// The host of a connection's rules.

ghost use Rattle.std.specs.Prelude.{◌≡◌, ◌++◌, ◌&&◌, [], MatchResult, OnErr, OnOk, Option};
ghost use Rattle.std.specs.Prelude.{is_some, option_map, true};
ghost use Rattle.irule_http.specs.Commands.{http_step};
ghost use Rattle.irule_http.specs.declared.state.Http.{Http};
ghost use Rattle.irule_net.specs.Commands.{is_http};
ghost use Rattle.irule_net.specs.State.{collected};
ghost use Rattle.px_bytes.specs.Answered.{DidStep};
ghost use Rattle.conn_trace.specs.Host.{commands, first_word};
ghost use Rattle.conn_trace.specs.Host as model;
ghost use Rattle.conn_trace.specs.Http.{response_begun};
ghost use Rattle.conn_trace.specs.Places.{http_begun};
ghost use Rattle.conn.specs.Hosts.{answer_made, begun_host, cleared_host, fired_host, fresh_host};
ghost use Rattle.conn.specs.Hosts.{fresh_http, released_host, requested_host, responded_host};
ghost use Rattle.conn.specs.Hosts.{seen_at, seen_net, selected_host, serving_host};

use crate::events::At;
use crate::routing::chosen;
use conn_trace::is_there;
use event_order::EventName;
use frames::Host;
use http_frames::start;
use http_heads::{RequestHead, ResponseHead};
use irule_http::{Http, Request, Response, http_command};
use irule_net::{Asks, Collected, Effects, Groups, NetState, Selected, net_command};
use px_bytes::{HostAnswer, M, Side, TclFault, Text, Texts};
use std::alloc::Global;

/// So many requests are counted.
const MOST_REQUESTS: u64 = 9_223_372_036_854_775_807;

/// What the commands of a connection's rules read and leave.
#[derive(Drop)]
pub struct RuleHost {
    /// The event whose bodies run.
    pub event: At,
    /// What network commands leave.
    pub net: NetState,
    /// What is known of the request at hand, where the virtual server speaks HTTP.
    pub http: Option<Http>,
    /// What network commands did outside the script, and wasn't done yet.
    pub made: Effects,
    /// The answer of a rule to the request, that wasn't sent yet.
    pub answer: Option<Text>,
}

impl RuleHost {
    pub fn new(alloc: Global, net: NetState, http: bool) -> RuleHost
        ensures { result ≡ fresh_host net http }
    {
        RuleHost {
            event: At::Accepted,
            net,
            http: fresh_http(alloc, http),
            made: Effects::new(alloc),
            answer: None,
        }
    }

    /// Nothing is left to be done.
    pub fn clear(&mut self)
        ensures { self.new ≡ cleared_host self.old }
    {
        self.made.clear();
        self.answer = None;
    }

    /// An event begins, where there is a server connection or none.
    pub fn begin(&mut self, event: At, up: bool)
        ensures { self.new ≡ begun_host event up self.old }
    {
        self.event = event;
        begin_http(&mut self.http, &self.net);
        self.net.begin();
        self.net.relays = up;
    }

    /// A request begins, with its head for rules: of the one before only its number is left and the choice
    /// by which the open server's connection was selected.
    pub fn begin_request(&mut self, alloc: Global, request: Request, head: RequestHead)
        requires { head ≡ request.head }
        ensures { self.new ≡ requested_host request self.old }
    {
        let (number, serves) = match &mut self.http {
            Some(http) => (http.number, http.serves.take()),
            None => (0, None),
        };
        let mut http = Http::new(alloc);
        http.number = number.min(MOST_REQUESTS - 1) + 1;
        http.body = request.body;
        http.reader = start(request.body);
        http.came = Some(request);
        http.request = Some(head);
        http.serves = serves;
        self.http = Some(http);
        self.net.begin();
        self.net.reselects = 0;
    }

    /// A response begins, with its head for rules, where HTTP is spoken.
    pub fn begin_response(&mut self, alloc: Global, response: Response, head: ResponseHead)
        requires spoken { is_some self.old.http ≡ true }
        requires same { head ≡ response.head }
        ensures { self.new ≡ responded_host response self.old }
    {
        if let Some(http) = &mut self.http {
            respond(alloc, http, response, head);
        }
        self.net.begin();
    }

    /// The server connection was made by the choice of the rules. Out of memory nothing is said.
    pub fn serve(&mut self) -> M<()>
        ensures { OnOk result (self.new ≡ serving_host self.old) }
    {
        if let Some(http) = &mut self.http {
            http.serves = Some(chosen(&self.net)?);
        }
        Ok(())
    }

    /// The collect of a side, and what it holds.
    pub fn collected(&self, side: Side) -> &Collected
        ensures { result.now ≡ collected side self.now.net }
    {
        match side {
            Side::Client => &self.net.client,
            Side::Server => &self.net.server,
        }
    }

    /// The collect of a side is met by these bytes: it holds them, and is over. Out of memory
    /// nothing changes.
    pub fn fire(&mut self, side: Side, bytes: &[u8]) -> M<()>
        ensures ok { OnOk result (self.new ≡ fired_host side bytes.now self.old) }
        ensures err { OnErr result (self.new ≡ self.old) }
    {
        match side {
            Side::Client => hold(&mut self.net.client, bytes),
            Side::Server => hold(&mut self.net.server, bytes),
        }
    }

    // A command of HTTP is called, where that is spoken.
    fn asks_http(&self, words: &Texts) -> bool
        ensures { result ≡ (is_some self.now.http && is_http (first_word words.now)) }
    {
        self.http.is_some() && is_http(first_word(words))
    }

    /// No released bytes wait for the server any more.
    pub fn released(&mut self, alloc: Global)
        ensures { self.new ≡ released_host self.old }
    {
        self.net.loose = Text::empty(alloc);
    }

    /// This server is selected, or none.
    pub fn select(&mut self, selected: Option<Selected>)
        ensures { self.new ≡ selected_host selected self.old }
    {
        self.net.selected = selected;
    }
}

fn fresh_http(alloc: Global, http: bool) -> Option<Http>
    ensures { result ≡ fresh_http http }
{
    if http {
        return Some(Http::new(alloc));
    }
    None
}

// That an event before gave the server connection up isn't forgotten.
fn begin_http(http: &mut Option<Http>, net: &NetState)
    ensures { http.new ≡ option_map (http_begun net.now) http.old }
{
    if let Some(http) = http {
        http.begin();
        http.detaches = http.detaches || net.wishes.detaches;
    }
}

// Of what was known before all that isn't of its message is left.
fn respond(alloc: Global, http: &mut Http, response: Response, head: ResponseHead)
    requires { head ≡ response.head }
    ensures { http.new ≡ response_begun response http.old }
{
    http.body = response.body;
    http.reader = start(response.body);
    http.answered_by = Some(response);
    http.response = Some(head);
    http.whole = false;
    http.collect = 0;
    http.gathered = None;
    http.payload = Text::empty(alloc);
    http.detaches = false;
}

fn hold(collected: &mut Collected, bytes: &[u8]) -> M<()>
    ensures ok { OnOk result (collected.new
        ≡ record { asks = Asks.NotAsked; held = collected.old.held ++ bytes.now }) }
    ensures err { OnErr result (collected.new ≡ collected.old) }
{
    collected.held.push(bytes)?;
    collected.asks = Asks::NotAsked;
    Ok(())
}

impl Host for RuleHost {
    ghost use Rattle.conn_trace.specs.Host.{HostState, commands};
    ghost use Rattle.conn.specs.Hosts.{Made, seen_host};
    ghost use Rattle.conn.specs.Making.{made_none, made_both};

    type Env = Groups;

    ghost Seen = { HostState };

    ghost seen = { seen_host };

    ghost made = { λ a es b. Made a es b };

    ghost table = { commands };

    fn call(&mut self, alloc: Global, groups: &Groups, words: &Texts) -> HostAnswer {
        let event = self.event.name();
        if self.asks_http(words) {
            return match &mut self.http {
                Some(http) => request_command(alloc, event, http, words, &mut self.answer),
                None => HostAnswer::Memory,
            };
        }
        if self.answer.is_some() {
            return HostAnswer::Memory;
        }
        rule_command(alloc, groups, event, &mut self.net, words, &mut self.made)
    }

    ghost made_none = { made_none };

    ghost made_both = { made_both };
}

/// Carries out the host command that the first word names, in an event. What it does outside the
/// script stands behind what was made before. Where memory is refused nothing is said of the state.
pub fn host_command(
    alloc: Global,
    groups: &Groups,
    event: EventName,
    net: &mut NetState,
    words: &Texts,
    made: &mut Effects,
) -> HostAnswer
    ensures { let old = seen_net event net.old in
        let new = seen_net event net.new in
        DidStep (commands groups.now old words.now) result new (λ es. made.new ≡ made.old ++ es) }
{
    rule_command(alloc, groups, event, net, words, made)
}

// Where HTTP is spoken or not.
fn rule_command(
    alloc: Global,
    groups: &Groups,
    event: EventName,
    net: &mut NetState,
    words: &Texts,
    made: &mut Effects,
) -> HostAnswer
    ensures { (http : Option Http)
        → DidStep (model.net_command groups.now (seen_at event net.old http) words.now) result
        (seen_at event net.new http) (λ es. made.new ≡ made.old ++ es) }
{
    let name = first_word(words);
    if !is_there(name) {
        return raised(TclFault::no_command(alloc, name));
    }
    net_command(alloc, net, groups, event, words, made)
}

// A command of the request at hand. A rule answers it once, and no second answer is held.
fn request_command(
    alloc: Global,
    event: EventName,
    http: &mut Http,
    words: &Texts,
    answer: &mut Option<Text>,
) -> HostAnswer
    ensures { DidStep (http_step event http.old words.now) result http.new
        (λ es. answer_made answer.new ≡ answer_made answer.old ++ es) }
{
    let answered = http.answer.is_some();
    let mut sent = Text::empty(alloc);
    let said = http_command(alloc, http, event, words, &mut sent);
    if answered {
        return said;
    }
    if http.answer.is_none() {
        return said;
    }
    if answer.is_some() {
        return HostAnswer::Memory;
    }
    *answer = Some(sent);
    said
}

// A command that HTTP alone has.
fn is_http(name: &[u8]) -> bool
    ensures { result ≡ is_http name.now }
{
    name.starts_with(b"HTTP::")
}

fn first_word(words: &Texts) -> &[u8]
    ensures { result.now ≡ first_word words.now }
{
    match words.as_slice() {
        [name, ..] => name.as_bytes(),
        [] => b"",
    }
}

fn raised(fault: M<TclFault>) -> HostAnswer
    ensures { MatchResult fault (λ f. result ≡ HostAnswer.Fault f)
        (λ e. result ≡ HostAnswer.Memory) }
{
    match fault {
        Ok(fault) => HostAnswer::Fault(fault),
        Err(_) => HostAnswer::Memory,
    }
}
