// Texts.

ghost use Rattle.std.specs.Prelude.{◌≡◌, ◌≤◌, Ok, IfOk, IfErr, OnOk, length};
ghost use Rattle.toml.specs.View.{array_view, table_view};
ghost use Rattle.tmsh_read.specs.Reading as spec;
ghost use Rattle.tmsh_read.specs.Reading.{IsFault, IsStop, IsWithin, Means, Reads, finished, with_array};
ghost use Rattle.tmsh_read.specs.Sketch.{sketch};
ghost use Rattle.tmsh_read.specs.declared.gap.Gap.TheVariants.{LineStart};

use crate::draft::Draft;
use crate::fault::ReadFault;
use crate::gap::Gap;
use crate::next::Next;
use crate::tables::put;
use crate::token::{Found, Token};
use crate::tokens::found_in;
use px_bytes::M;
use std::alloc::Global;
use std::mem;
use toml::value::Array;
use toml::{Table, Value};

/// What comes of the first token of some bytes.
#[derive(Clone, Copy)]
pub(crate) enum Turn {
    /// The text may end here.
    Ends,
    /// The token begins behind so many bytes, and may not stand here.
    Stops(usize),
    /// It ends behind so many bytes.
    Goes(usize),
}

impl Draft {
    fn may_end(&self) -> bool
        ensures { result ≡ spec.may_end (sketch self.now).next }
    {
        match self.next {
            Next::Stanza => true,
            _ => false,
        }
    }

    fn wants_text(&self) -> bool
        ensures { result ≡ spec.wants_text (sketch self.now).next }
    {
        match self.next {
            Next::Text => true,
            _ => false,
        }
    }

    // Goes on by a token between these places.
    fn advance(&mut self, token: Token, start: usize, end: usize) -> M<Turn>
        ensures turn { IfOk result (λ turn. spec.turned turn (sketch self.new)
            ≡ spec.moved (sketch self.old) start end token) }
        ensures within { IfOk result (spec.IsBetween start end) }
    {
        match token {
            Token::End if self.may_end() => Ok(Turn::Ends),
            _ if end == 0 => Ok(Turn::Stops(start)),
            token => {
                if self.step(token)? {
                    Ok(Turn::Goes(end))
                } else {
                    Ok(Turn::Stops(start))
                }
            }
        }
    }

    // Goes on by the first token of these bytes.
    fn turn(&mut self, gap: Gap, bytes: &[u8]) -> M<Turn>
        ensures turn { IfOk result (λ turn. spec.turned turn (sketch self.new)
            ≡ spec.answer gap (sketch self.old) bytes.now) }
        ensures within { IfOk result (IsWithin (length bytes.now)) }
    {
        let Found { token, start, end } = found_in(self.alloc, self.wants_text(), gap, bytes)?;
        self.advance(token, start, end)
    }

    // Reads a text.
    fn fill(&mut self, text: &[u8]) -> Result<(), ReadFault>
        ensures read { OnOk result (Reads LineStart (sketch self.old) 0 text.now
            (Ok (sketch self.new))) }
        ensures stopped { IfErr result (IsStop (sketch self.old) text.now) }
    {
        let mut gap = Gap::LineStart;
        let mut at = 0;
        'tokens: loop {
            match self.turn(gap, &text[at..])? {
                Turn::Ends => return Ok(()),
                Turn::Stops(start) => return Err(ReadFault::Form(at + start)),
                Turn::Goes(size) => at += size,
            }
            gap = Gap::Within;
        }
    }

    // Makes its limits the table of the whole text.
    fn finish(&mut self) -> M<()>
        ensures { OnOk result (table_view (self.new).limits ≡ finished (sketch self.old)) }
    {
        let alloc = self.alloc;
        put(alloc, &mut self.limits, "version", Value::Integer(2))?;
        gather(alloc, &mut self.limits, "virtual", &mut self.servers)?;
        gather(alloc, &mut self.limits, "pool", &mut self.pools)?;
        gather(alloc, &mut self.limits, "rule", &mut self.rules)?;
        gather(alloc, &mut self.limits, "group", &mut self.groups)
    }

    fn read(&mut self, text: &[u8]) -> Result<(), ReadFault>
        ensures read { OnOk result (spec.Fills (sketch self.old) text.now
            (table_view (self.new).limits)) }
        ensures stopped { IfErr result (IsStop (sketch self.old) text.now) }
    {
        self.fill(text)?;
        self.finish()?;
        Ok(())
    }
}

// Puts an array at a key, unless it is empty.
fn gather(alloc: Global, table: &mut Table, key: &str, array: &mut Array) -> M<()>
    ensures { OnOk result (table_view table.new
        ≡ with_array key.now (array_view array.old) (table_view table.old)) }
{
    if array.is_empty() {
        return Ok(());
    }
    let whole = mem::replace(array, Vec::new(alloc));
    put(alloc, table, key, Value::Array(whole))?;
    Ok(())
}

/// The table of a text, which is UTF-8.
fn table_in(alloc: Global, text: &[u8]) -> Result<Table, ReadFault>
    ensures table { IfOk result (λ t. spec.Fills spec.blank text.now (table_view t)) }
    ensures stopped { IfErr result (IsStop spec.blank text.now) }
{
    let mut draft = Draft::new(alloc);
    match draft.read(text) {
        Ok(()) => Ok(mem::replace(&mut draft.limits, Table::new(alloc))),
        Err(why) => Err(why),
    }
}

/// The table of a text: what its stanzas say, and version 2.
pub fn table_of(alloc: Global, text: &[u8]) -> Result<Table, ReadFault>
    ensures table { IfOk result (λ t. Means text.now (table_view t)) }
    ensures fault { IfErr result (IsFault text.now) }
{
    match str::from_utf8(text) {
        Ok(_) => table_in(alloc, text),
        Err(fault) => Err(ReadFault::NotUtf8(fault.valid_up_to())),
    }
}
