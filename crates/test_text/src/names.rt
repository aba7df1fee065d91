// The names of clients and others.

ghost use Rattle.std.specs.Prelude.{◌≡◌};
ghost use Rattle.test_text.specs.Deeds.{client_at, client_in, name_at, new_at, number_of};
ghost use Rattle.test_text.specs.Deeds.{server_at};
ghost use Rattle.test_text.specs.Faults.{Gives};
ghost use Rattle.tcl_words.specs.View.{word_view};
ghost use Rattle.test_text.specs.Line.{line_view};

use crate::deed::{PlacedAddr, PlacedName};
use crate::fault::{Stopped, TestFault, TestFaultKind, fault_at};
use crate::line::{Line, place_of, text_of};
use px_bytes::{Text, Texts};
use std::alloc::Global;
use tcl_words::Word;

// The number of a client of this name among those that came before.
fn number_of(name: &[u8], clients: &[Text]) -> Option<usize>
    ensures { result ≡ number_of name.now clients.now }
{
    clients.iter().position(|client| client.as_bytes() == name)
}

/// The number of the client whose name a word is.
pub(crate) fn client_in(word: &Word, clients: &Texts) -> Result<usize, TestFault>
    ensures { result ≡ client_in clients.now (word_view word.now) }
{
    let name = text_of(word)?;
    match number_of(name, clients.as_slice()) {
        Some(number) => Ok(number),
        None => Err(fault_at(TestFaultKind::NoClient, place_of(word))),
    }
}

impl Line<'_> {
    /// The name at a place.
    pub(crate) fn name(self, alloc: Global, at: usize) -> Result<PlacedName, Stopped>
        ensures { Gives result (name_at (line_view self.entry) at) }
    {
        let name = self.text(alloc, at)?;
        Ok(PlacedName {
            place: self.place(at),
            name,
        })
    }

    /// The address of a server at a place.
    pub(crate) fn server(self, at: usize) -> Result<PlacedAddr, TestFault>
        ensures { result ≡ server_at (line_view self.entry) at }
    {
        let addr = self.address(at)?;
        Ok(PlacedAddr {
            place: self.place(at),
            addr,
        })
    }

    /// The number of the client whose name stands at a place.
    pub(crate) fn client(self, clients: &Texts, at: usize) -> Result<usize, TestFault>
        ensures { result ≡ client_at clients.now (line_view self.entry) at }
    {
        client_in(self.word(at)?, clients)
    }

    /// The name of a client that comes, at a place: none before it has that.
    pub(crate) fn new_client(
        self,
        alloc: Global,
        clients: &Texts,
        at: usize,
    ) -> Result<Text, Stopped>
        ensures { Gives result (new_at clients.now (line_view self.entry) at) }
    {
        let name = self.bytes(at)?;
        match number_of(name, clients.as_slice()) {
            None => Ok(Text::new(alloc, name)?),
            Some(_) => Err(Stopped::Fault(fault_at(TestFaultKind::TwiceClient, self.place(at)))),
        }
    }
}
