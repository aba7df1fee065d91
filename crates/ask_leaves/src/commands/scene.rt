// A connection with one request, on which rules call HTTP commands.

use crate::commands::left::{closes, say_head, say_sent};
use crate::commands::received::{request, request_head, response, response_head};
use event_order::{EventName, read_event};
use http_frames::start;
use irule_http::{Http, http_command, sent_head};
use irule_net::{Effects, Groups, NetState, net_command};
use px_bytes::{Addr, HostAnswer, Memory, Seq, Side, Text, Texts};
use questions::Question;

/// What the request and its response are known by, the event that runs, the request's head as it went out once its
/// response is there, and what was sent to the client.
#[derive(Drop)]
pub struct HttpScene {
    pub http: Http,
    net: NetState,
    groups: Groups,
    made: Effects,
    event: EventName,
    response: Text,
    request: Option<Text>,
    sent: Text,
    detached: bool,
}

impl HttpScene {
    pub fn new(question: &mut Question<'_>, number: u64, head: &Text, response: Text) -> HttpScene {
        let alloc = question.alloc;
        let mut http = Http::new(alloc);
        http.number = number;
        http.request = request_head(question, head);
        http.came = request(question, head);
        if let Some(request) = &http.came {
            http.body = request.body;
            http.reader = start(request.body);
        }
        HttpScene {
            http,
            net: NetState::new(alloc, Addr { ip: 0, port: 0 }, 80, Text::empty(alloc), true),
            groups: Groups {
                classes: Seq::new(alloc),
                pools: Seq::new(alloc),
            },
            made: Effects::new(alloc),
            event: EventName::RuleInit,
            response,
            request: None,
            sent: Text::empty(alloc),
            detached: false,
        }
    }

    /// The answer to a step; an event has none.
    pub fn answer_step(&mut self, question: &mut Question<'_>, step: &[&str]) {
        match step {
            [] => {}
            [first, rest @ ..] => match read_event(first.as_bytes()) {
                Some(event) => self.begin(question, event, rest),
                None => self.command(question, step),
            },
        }
    }

    fn begin(&mut self, question: &mut Question<'_>, event: EventName, bytes: &[&str]) {
        self.event = event;
        let of_response = matches!(event, EventName::HttpResponse | EventName::HttpResponseData);
        if of_response && self.http.response.is_none() {
            self.answered(question);
        }
        self.http.begin();
        self.net.begin();
        for word in bytes {
            self.gather(question, word);
        }
    }

    // The response comes.
    fn answered(&mut self, question: &mut Question<'_>) {
        self.request = sent_request(question, &self.http);
        let Some(came) = &self.http.came else {
            return;
        };
        self.http.answered_by = response(question, &self.response, came);
        self.http.response = response_head(question, &self.response, came);
        if let Some(response) = &self.http.answered_by {
            self.http.body = response.body;
            self.http.reader = start(response.body);
        }
        self.http.whole = false;
        self.http.gathered = None;
        self.http.payload = Text::empty(question.alloc);
    }

    // Bytes of the body come.
    fn gather(&mut self, question: &mut Question<'_>, word: &str) {
        let bytes = question.text_of(word);
        let gathered = self.http.gathered.unwrap_or(0);
        self.http.gathered = Some(gathered.saturating_add(bytes.len()));
        question.note(self.http.payload.push(bytes.as_bytes()));
    }

    fn command(&mut self, question: &mut Question<'_>, step: &[&str]) {
        let mut words = Texts::new(question.alloc);
        for word in step {
            let text = question.text_of(word);
            question.note(words.push(text));
        }
        let answer = self.outcome(question, &words);
        self.detached = self.detached || self.net.wishes.detaches;
        say_outcome(question, &answer);
    }

    fn outcome(&mut self, question: &mut Question<'_>, words: &Texts) -> HostAnswer {
        let alloc = question.alloc;
        let event = self.event;
        match words.as_slice() {
            [name, ..] if name.as_bytes() == b"LB::detach".as_slice() => {
                let (net, made) = (&mut self.net, &mut self.made);
                net_command(alloc, net, &self.groups, event, words, made)
            }
            _ => http_command(alloc, &mut self.http, event, words, &mut self.sent),
        }
    }

    /// What is left behind the steps.
    pub fn say_end(&self, question: &mut Question<'_>, with_detach: bool) {
        question.say("request");
        match self.http.response {
            Some(_) => say_sent(question, &self.request),
            None => say_head(question, Side::Client, &self.http),
        }
        question.say("response");
        say_head(question, Side::Server, &self.http);
        question.say("sent");
        question.say_text(self.sent.as_bytes());
        question.say("closes");
        question.say_truth(closes(&self.http));
        self.say_asked(question);
        if with_detach {
            question.say("detached");
            question.say_truth(self.detached);
        }
    }

    fn say_asked(&self, question: &mut Question<'_>) {
        question.say("collect");
        match self.http.answer {
            Some(_) => question.say("none"),
            None => question.say_number(self.http.collect as u64),
        }
        question.say("payload");
        match self.event {
            EventName::HttpRequestData | EventName::HttpResponseData => {
                question.say_text(self.http.payload.as_bytes());
            }
            _ => question.say("none"),
        }
    }
}

fn sent_request(question: &mut Question<'_>, http: &Http) -> Option<Text> {
    http.request.as_ref()?;
    match sent_head(question.alloc, Side::Client, http) {
        Ok(text) => Some(text),
        Err(Memory) => {
            question.refuse();
            None
        }
    }
}

fn say_outcome(question: &mut Question<'_>, answer: &HostAnswer) {
    match answer {
        HostAnswer::Value(text) => {
            question.say("ok");
            question.say_text(text.as_bytes());
        }
        HostAnswer::Fault(fault) => question.say_whole_fault(fault),
        HostAnswer::Ask(_) => question.say("ask"),
        HostAnswer::Memory => question.refuse(),
    }
}
