// A request's head is read.

ghost use Rattle.std.specs.Prelude.{◌≡◌, ◌+◌, ◌≤◌, is_some, length, take, true, IfOk, OnErr};
ghost use Rattle.conn.specs.Acts.{ReadsHead, RequestBy};
ghost use Rattle.http_messages.specs.Messages.{request_of};

use crate::connection::Conn;
use crate::events::At;
use crate::setup::Setup;
use crate::stage::Finish;
use crate::turn::Act;
use core_events::Notes;
use http_heads::{HeadFault, HeadPart};
use http_messages::request_of;
use px_bytes::{M, Memory};
use std::alloc::Global;

impl Conn {
    /// Reads the client's next request, if its head came whole, and enters HTTP_REQUEST.
    pub(crate) fn read_head(
        &mut self,
        alloc: Global,
        setup: &Setup<'_>,
        number: u32,
        notes: &mut Notes,
    ) -> M<Act>
        requires { 1 ≤ notes.old.spare }
        ensures ok { IfOk result (λ act. (is_some self.old.host.http ≡ true)
            × ReadsHead setup.now number self.old self.new notes.old.items notes.new.items act) }
        ensures err { OnErr result (notes.new ≡ notes.old) }
        ensures kept { OnErr result (self.new.ends.edges ≡ self.old.ends.edges) }
        ensures spare { notes.old.spare ≤ notes.new.spare + 1 }
        ensures grows { length notes.old.items ≤ length notes.new.items }
        ensures room { notes.new.spare + length notes.new.items
            ≡ notes.old.spare + length notes.old.items }
    {
        let Some(_http) = &self.host.http else {
            return Err(Memory);
        };
        match self.ends.client.unread.head(self.ends.client.ended) {
            HeadPart::HeadOf(n) => self.read_request(alloc, setup, number, n, notes),
            HeadPart::StreamEnds => {
                self.finish(setup, number, Finish::Closed, notes);
                Ok(Act::Goes)
            }
            HeadPart::Faulty(fault) => self.refuse(setup, number, fault, notes),
            HeadPart::NoHead => Ok(self.rest_or_cut(setup, number, notes)),
        }
    }

    // The request whose head the first n bytes are.
    fn read_request(
        &mut self,
        alloc: Global,
        setup: &Setup<'_>,
        number: u32,
        n: usize,
        notes: &mut Notes,
    ) -> M<Act>
        requires room { 1 ≤ notes.old.spare }
        requires there { n ≤ length self.old.ends.client.unread }
        ensures ok { IfOk result (λ act. RequestBy (request_of (take n self.old.ends.client.unread)) n
            setup.now number self.old self.new notes.old.items notes.new.items act) }
        ensures err { OnErr result (notes.new ≡ notes.old) }
        ensures kept { OnErr result (self.new.ends.edges ≡ self.old.ends.edges) }
        ensures spare { notes.old.spare ≤ notes.new.spare + 1 }
        ensures grows { length notes.old.items ≤ length notes.new.items }
        ensures room { notes.new.spare + length notes.new.items
            ≡ notes.old.spare + length notes.old.items }
    {
        match request_of(alloc, &self.ends.client.unread.front()[..n]) {
            Ok(request) => {
                let head = request.head.copy(alloc)?;
                self.host.begin_request(alloc, request, head);
                self.ends.client.unread.drop_front(n);
                self.enter(setup, At::Request);
                Ok(Act::Goes)
            }
            Err(HeadFault::Fault(fault)) => self.refuse(setup, number, fault, notes),
            Err(HeadFault::Memory) => Err(Memory),
        }
    }
}
