// The server's response is read.

ghost use Rattle.std.specs.Prelude.{◌≡◌, ◌+◌, ◌≤◌, is_some, length, take, true, IfOk, OnErr};
ghost use Rattle.conn_trace.specs.Messages.{asked_version, is_interim};
ghost use Rattle.conn.specs.Forwarding.{AnswerGoes, GivesHead, InterimGoes, InterimsPass, StatusStops, answer_of};
ghost use Rattle.conn.specs.Forwarding.{switches};
ghost use Rattle.conn.specs.Messages.{ReadsResponse, StatusBy};
ghost use Rattle.conn.specs.Stages.{http_in};

use crate::connection::Conn;
use crate::ends::{ConnectionEnd, Ends};
use crate::events::At;
use crate::setup::Setup;
use crate::stage::Finish;
use crate::turn::Act;
use core_events::Notes;
use http_heads::{HeadFault, HeadPart, ResponseHead, Version};
use http_messages::response_of;
use irule_http::{Request, Response, interim_head};
use px_bytes::{HttpFault, M, Memory, Side};
use std::alloc::Global;

/// What stands where a response is due.
#[derive(Drop)]
pub(crate) enum Answer {
    /// A response whose head takes so many bytes.
    Head(usize, Response),
    /// Nothing more comes.
    Ends,
    /// One that can't be read.
    Fault(HttpFault),
    /// No whole head yet.
    NoHead,
}

impl ConnectionEnd {
    // What stands where a response to this request is due.
    fn answer(&mut self, alloc: Global, came: &Option<Request>) -> M<Answer>
        ensures ok { IfOk result (λ answer. answer ≡ answer_of came.now self.old) }
        ensures same { self.new ≡ self.old }
    {
        let n = match self.unread.head(self.ended) {
            HeadPart::HeadOf(n) => n,
            HeadPart::StreamEnds => return Ok(Answer::Ends),
            HeadPart::Faulty(fault) => return Ok(Answer::Fault(fault)),
            HeadPart::NoHead => return Ok(Answer::NoHead),
        };
        match response_of(alloc, came.as_ref(), &self.unread.front()[..n]) {
            Ok(response) => Ok(Answer::Head(n, response)),
            Err(HeadFault::Fault(fault)) => Ok(Answer::Fault(fault)),
            Err(HeadFault::Memory) => Err(Memory),
        }
    }
}

impl Ends {
    // Sends responses before the final one on, as there is room: what stands behind them.
    fn pass_interims(&mut self, alloc: Global, came: &Option<Request>) -> M<Answer>
        ensures ok { IfOk result (λ answer. InterimsPass came.now self.old self.new answer) }
        ensures edges { self.new.edges ≡ self.old.edges }
    {
        for _head in 0..=self.server.unread.len() {
            let answer = self.server.answer(alloc, came)?;
            if !self.pass_answer(alloc, came, &answer)? {
                return Ok(answer);
            }
        }
        Err(Memory)
    }

    // Sends what stands there on, where it is a response before the final one and has room; it says whether it did.
    fn pass_answer(&mut self, alloc: Global, came: &Option<Request>, answer: &Answer) -> M<bool>
        requires { answer.now ≡ answer_of came.now self.old.server }
        ensures ok { IfOk result (λ goes. AnswerGoes goes came.now answer.now self.old self.new) }
        ensures edges { self.new.edges ≡ self.old.edges }
    {
        match answer {
            Answer::Head(n, response) => self.pass_interim(alloc, came, *n, response),
            Answer::Ends | Answer::Fault(_) | Answer::NoHead => Ok(false),
        }
    }

    // Sends one on that isn't final, where there is room, and to a client of 1.0 nothing of it; it says whether it
    // did.
    fn pass_interim(
        &mut self,
        alloc: Global,
        came: &Option<Request>,
        n: usize,
        response: &Response,
    ) -> M<bool>
        requires { n ≤ length self.old.server.unread }
        ensures ok { IfOk result (λ goes. InterimGoes goes came.now n response.now self.old self.new) }
        ensures edges { self.new.edges ≡ self.old.edges }
    {
        let status = response.head.status.code();
        if status == 101 || status >= 200 {
            return Ok(false);
        }
        if let Version::Http11 = asked_version(came) {
            if !self.has_room(Side::Server) {
                return Ok(false);
            }
            let head = interim_head(alloc, response)?;
            self.send(Side::Server, head.as_bytes())?;
        }
        self.read(Side::Server, n);
        Ok(true)
    }
}

// The version of the request at hand.
fn asked_version(came: &Option<Request>) -> Version
    ensures { result ≡ asked_version came.now }
{
    match came {
        Some(request) => request.head.version,
        None => Version::Http10,
    }
}

impl Conn {
    /// Reads the server's response, if its head came whole, and enters HTTP_RESPONSE.
    pub(crate) fn read_response(
        &mut self,
        alloc: Global,
        setup: &Setup<'_>,
        number: u32,
        notes: &mut Notes,
    ) -> M<Act>
        requires { 1 ≤ notes.old.spare }
        ensures ok { IfOk result (λ act. (is_some self.old.host.http ≡ true)
            × ReadsResponse setup.now number self.old self.new
            notes.old.items notes.new.items act) }
        ensures err { OnErr result (notes.new ≡ notes.old) }
        ensures kept { OnErr result (self.new.ends.edges ≡ self.old.ends.edges) }
        ensures spare { notes.old.spare ≤ notes.new.spare + 1 }
        ensures grows { length notes.old.items ≤ length notes.new.items }
        ensures room { notes.new.spare + length notes.new.items
            ≡ notes.old.spare + length notes.old.items }
    {
        let Some(http) = &self.host.http else {
            return Err(Memory);
        };
        let answer = self.ends.pass_interims(alloc, &http.came)?;
        match answer {
            Answer::Head(n, response) => {
                self.take_response(alloc, setup, number, n, response, notes)
            }
            Answer::Ends => {
                self.finish(setup, number, Finish::Http(HttpFault::ShortBody), notes);
                Ok(Act::Goes)
            }
            Answer::Fault(fault) => {
                self.finish(setup, number, Finish::Http(fault), notes);
                Ok(Act::Goes)
            }
            Answer::NoHead => Ok(self.wait_or_cut(setup, number, Side::Server, notes)),
        }
    }

    // The final response, or one that switches protocols; one before it waits for room.
    fn take_response(
        &mut self,
        alloc: Global,
        setup: &Setup<'_>,
        number: u32,
        n: usize,
        response: Response,
        notes: &mut Notes,
    ) -> M<Act>
        requires room { 1 ≤ notes.old.spare }
        requires spoken { is_some self.old.host.http ≡ true }
        requires here { answer_of (http_in self.old.host).came self.old.ends.server ≡ Answer.Head n response }
        requires stops { let version = asked_version (http_in self.old.host).came in
            StatusStops (switches response) (is_interim response.head) version self.old.ends }
        ensures ok { IfOk result (λ act. StatusBy (switches response) (is_interim response.head) n response
            setup.now number self.old self.new notes.old.items notes.new.items act) }
        ensures err { OnErr result (notes.new ≡ notes.old) }
        ensures kept { OnErr result (self.new.ends.edges ≡ self.old.ends.edges) }
        ensures spare { notes.old.spare ≤ notes.new.spare + 1 }
        ensures grows { length notes.old.items ≤ length notes.new.items }
        ensures room { notes.new.spare + length notes.new.items
            ≡ notes.old.spare + length notes.old.items }
    {
        let status = response.head.status.code();
        if status == 101 {
            self.finish(setup, number, Finish::Http(HttpFault::Switching), notes);
            return Ok(Act::Goes);
        }
        if status < 200 {
            return Ok(self.rest_or_cut(setup, number, notes));
        }
        let head = self.response_head(alloc, n)?;
        self.host.begin_response(alloc, response, head);
        self.ends.read(Side::Server, n);
        self.enter(setup, At::Response);
        Ok(Act::Goes)
    }

    // The head of the response that stands there, for rules.
    fn response_head(&self, alloc: Global, n: usize) -> M<ResponseHead>
        requires { n ≤ length self.now.ends.server.unread }
        ensures { let bytes = take n self.now.ends.server.unread in
            IfOk result (λ head. GivesHead (http_in self.now.host).came bytes head) }
    {
        let Some(http) = &self.host.http else {
            return Err(Memory);
        };
        match response_of(
            alloc,
            http.came.as_ref(),
            &self.ends.server.unread.front()[..n],
        ) {
            Ok(response) => Ok(response.head),
            Err(_) => Err(Memory),
        }
    }
}
