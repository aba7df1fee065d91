// The units of a body go on.

ghost use Rattle.std.specs.Prelude.{◌≡◌, ◌+◌, ◌≤◌, ◌<◌, ◌++◌, is_some, length, true, IfOk, OnErr};
ghost use Rattle.std.specs.Prelude.{OnOk};
ghost use Rattle.std.specs.Char.{digit_char};
ghost use Rattle.conn_trace.specs.SentBodies.{chunk_line, closing, hex_digits, last_line};
ghost use Rattle.conn.specs.Forwarding.{ForwardsUnits, LooksAt, UnitGoes};
ghost use Rattle.conn.specs.Messages.{EndsBy, ForwardsBody, RefusesOf};
ghost use Rattle.conn_trace.specs.Messages.{is_counted};
ghost use Rattle.conn.specs.Relaying.{passes_now};

use crate::connection::Conn;
use crate::ends::Ends;
use crate::routing::behind_message;
use crate::setup::Setup;
use crate::stage::{Finish, Stage};
use crate::turn::Act;
use core_events::Notes;
use http_frames::{BodyState, Unit, go_on};
use px_bytes::{HttpFault, M, Memory, Side, Text};
use std::alloc::Global;

/// Where the reader of a body stands that goes on, and whether a chunk stands open.
#[derive(Clone, Copy)]
pub(crate) struct Standing {
    pub(crate) reader: BodyState,
    pub(crate) standing: bool,
}

impl Ends {
    /// Sends the units of a body on that came, one after another, while there is room: what stands in front
    /// then.
    fn forward_units(&mut self, alloc: Global, side: Side, from: Standing) -> M<(Standing, Unit)>
        ensures ok { IfOk result (λ r. ForwardsUnits side from self.old r.0 self.new r.1) }
        ensures edges { self.new.edges ≡ self.old.edges }
    {
        let mut place = from;
        for _unit in 0..=self.end_of(side).unread.len() {
            let unit = self.next_unit(side, place.reader);
            if !self.forward_unit(alloc, side, &mut place, unit)? {
                return Ok((place, unit));
            }
        }
        Err(Memory)
    }

    /// What stands in front of a side.
    pub(crate) fn next_unit(&mut self, side: Side, reader: BodyState) -> Unit
        ensures value { LooksAt side reader self.old result }
        ensures same { self.new ≡ self.old }
    {
        match side {
            Side::Client => self.client.unread.unit(reader, self.client.ended),
            Side::Server => self.server.unread.unit(reader, self.server.ended),
        }
    }

    // Sends it on, as much of a piece as there is room for; it says whether it did.
    fn forward_unit(
        &mut self,
        alloc: Global,
        side: Side,
        place: &mut Standing,
        unit: Unit,
    ) -> M<bool>
        requires { LooksAt side place.old.reader self.old unit }
        ensures ok { IfOk result (λ goes. UnitGoes goes side unit place.old self.old place.new self.new) }
        ensures edges { self.new.edges ≡ self.old.edges }
    {
        let room = self.room_for(side);
        if room == 0 {
            return Ok(false);
        }
        match unit {
            Unit::Piece(size) => {
                let n = size.min(room);
                self.pass(side, n)?;
                place.reader = go_on(place.reader, Unit::Piece(n));
                Ok(true)
            }
            Unit::ChunkLine { line, size } => {
                let text = chunk_line(alloc, place.standing, size)?;
                self.read(side, line);
                self.send(side, text.as_bytes())?;
                place.reader = BodyState::Chunk(size);
                place.standing = true;
                Ok(true)
            }
            Unit::Finished(_) | Unit::NotYet | Unit::Fault(_) => Ok(false),
        }
    }
}

impl Conn {
    /// Sends what came of a body on, as there is room. Behind the end of a request its response is read, and
    /// behind that of a response the next request.
    pub(crate) fn forward_body(
        &mut self,
        alloc: Global,
        setup: &Setup<'_>,
        number: u32,
        side: Side,
        from: Standing,
        notes: &mut Notes,
    ) -> M<Act>
        requires { 1 ≤ notes.old.spare }
        ensures ok { IfOk result (λ act. (is_some self.old.host.http ≡ true)
            × ForwardsBody side from.reader from.standing setup.now number self.old self.new
            notes.old.items notes.new.items act) }
        ensures err { OnErr result (notes.new ≡ notes.old) }
        ensures kept { OnErr result (self.new.ends.edges ≡ self.old.ends.edges) }
        ensures spare { notes.old.spare ≤ notes.new.spare + 1 }
        ensures grows { length notes.old.items ≤ length notes.new.items }
        ensures room { notes.new.spare + length notes.new.items
            ≡ notes.old.spare + length notes.old.items }
    {
        let Some(_http) = &self.host.http else {
            return Err(Memory);
        };
        let (place, unit) = self.ends.forward_units(alloc, side, from)?;
        self.stage = Stage::Forwarding {
            side,
            reader: place.reader,
            standing: place.standing,
        };
        match unit {
            Unit::Finished(size) => {
                self.end_body(alloc, setup, number, side, place, size, notes)
            }
            Unit::Fault(fault) => self.refuse_of(setup, number, side, fault, notes),
            Unit::NotYet => Ok(self.wait_or_cut(setup, number, side, notes)),
            // It waits for room.
            _ => Ok(self.rest_or_cut(setup, number, notes)),
        }
    }

    // The end of a body, of so many bytes; that of a chunked one is sent, where there is room.
    fn end_body(
        &mut self,
        alloc: Global,
        setup: &Setup<'_>,
        number: u32,
        side: Side,
        place: Standing,
        size: usize,
        notes: &mut Notes,
    ) -> M<Act>
        requires room { 1 ≤ notes.old.spare }
        requires there { passes_now side size self.old.ends }
        ensures ok { IfOk result (λ act. EndsBy (is_counted place.reader) side place.standing size
            setup.now number self.old self.new notes.old.items notes.new.items act) }
        ensures err { OnErr result (notes.new ≡ notes.old) }
        ensures kept { OnErr result (self.new.ends.edges ≡ self.old.ends.edges) }
        ensures spare { notes.old.spare ≤ notes.new.spare + 1 }
        ensures grows { length notes.old.items ≤ length notes.new.items }
        ensures room { notes.new.spare + length notes.new.items
            ≡ notes.old.spare + length notes.old.items }
    {
        if is_counted(place.reader) {
            self.ends.read(side, size);
            self.stage = behind_message(side, &self.host);
            return Ok(Act::Goes);
        }
        if !self.ends.has_room(side) {
            return Ok(self.rest_or_cut(setup, number, notes));
        }
        let text = last_line(alloc, place.standing)?;
        self.ends.read(side, size);
        self.ends.send(side, text.as_bytes())?;
        self.stage = behind_message(side, &self.host);
        Ok(Act::Goes)
    }

    /// What can't be read of the client's message is answered, and it finishes.
    pub(crate) fn refuse_of(
        &mut self,
        setup: &Setup<'_>,
        number: u32,
        side: Side,
        fault: HttpFault,
        notes: &mut Notes,
    ) -> M<Act>
        requires { 1 ≤ notes.old.spare }
        ensures ok { IfOk result (λ act. RefusesOf side fault setup.now number self.old self.new
            notes.old.items notes.new.items act) }
        ensures err { OnErr result (notes.new ≡ notes.old) }
        ensures kept { OnErr result (self.new.ends.edges ≡ self.old.ends.edges) }
        ensures spare { notes.old.spare ≤ notes.new.spare + 1 }
        ensures grows { length notes.old.items ≤ length notes.new.items }
        ensures room { notes.new.spare + length notes.new.items
            ≡ notes.old.spare + length notes.old.items }
    {
        match side {
            Side::Client => self.refuse(setup, number, fault, notes),
            Side::Server => {
                self.finish(setup, number, Finish::Http(fault), notes);
                Ok(Act::Goes)
            }
        }
    }
}

// Its length is told, or it lasts to the end of its stream.
fn is_counted(reader: BodyState) -> bool
    ensures { result ≡ is_counted reader }
{
    matches!(reader, BodyState::Left(_) | BodyState::ToEnd)
}

/// The line of a chunk, behind the CRLF of the one before.
pub(crate) fn chunk_line(alloc: Global, standing: bool, size: u64) -> M<Text>
    ensures { IfOk result (λ text. text ≡ chunk_line standing size) }
{
    let mut text = Text::new(alloc, closing(standing))?;
    push_hex(&mut text, size, 16)?;
    text.push(b"\r\n")?;
    Ok(text)
}

/// The end of a chunked body, behind the CRLF of the last chunk.
pub(crate) fn last_line(alloc: Global, standing: bool) -> M<Text>
    ensures { IfOk result (λ text. text ≡ last_line standing) }
{
    let mut text = Text::new(alloc, closing(standing))?;
    text.push(b"0\r\n\r\n")?;
    Ok(text)
}

fn closing(standing: bool) -> &'static [u8]
    ensures { result.now ≡ closing standing }
{
    if standing { b"\r\n" } else { b"" }
}

// So many digits at most.
fn push_hex(text: &mut Text, size: u64, digits: usize) -> M<()>
    ensures { OnOk result (text.new ≡ text.old ++ hex_digits digits size) }
{
    if digits == 0 {
        return Ok(());
    }
    if size >= 16 {
        push_hex(text, size / 16, digits - 1)?;
    }
    text.push(&[hex_digit((size % 16) as u8)])
}

fn hex_digit(digit: u8) -> u8
    requires { digit < 16 }
    ensures { result ≡ digit_char digit }
{
    if digit < 10 {
        b'0' + digit
    } else {
        b'a' + (digit - 10)
    }
}
