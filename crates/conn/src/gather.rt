// Bytes of a message's body are gathered that a rule collects.

ghost use Rattle.std.specs.Prelude.{◌≡◌, ◌+◌, ◌≤◌, is_some, length, true, IfOk, OnErr, OnOk};
ghost use Rattle.conn_trace.specs.Http.{with_gathered, with_whole};
ghost use Rattle.conn.specs.Forwarding.{LooksAt};
ghost use Rattle.conn.specs.Gathering.{GathersBody, GathersUnits, TakesPiece, UnitGathered, gathered};
ghost use Rattle.conn.specs.Gathering.{goes_on};
ghost use Rattle.conn.specs.Relaying.{passes_now};

use crate::connection::Conn;
use crate::ends::Ends;
use crate::events::At;
use crate::setup::Setup;
use crate::stage::Stage;
use crate::turn::Act;
use core_events::Notes;
use http_frames::{BodyState, Unit, go_on};
use irule_http::Http;
use px_bytes::{M, Memory, Side};

/// How many bytes more of a body are wanted, and where its reader stands.
#[derive(Clone, Copy)]
pub(crate) struct Portion {
    pub(crate) wanted: usize,
    pub(crate) reader: BodyState,
}

impl Ends {
    /// Gathers the units of a body that came, one after another, until as many bytes are there as are wanted or the
    /// body is: what stands in front then, or the last piece.
    fn gather_units(&mut self, side: Side, http: &mut Http, from: Portion) -> M<(Portion, Unit)>
        ensures ok { IfOk result (λ r. GathersUnits side (gathered from http.old self.old)
            (gathered r.0 http.new self.new) r.1) }
        ensures edges { self.new.edges ≡ self.old.edges }
    {
        let mut place = from;
        for _unit in 0..=self.end_of(side).unread.len() {
            let unit = self.next_unit(side, place.reader);
            if !self.gather_unit(side, http, &mut place, unit)? {
                return Ok((place, unit));
            }
        }
        Err(Memory)
    }

    // Gathers a unit, as much of a piece as is wanted; it says whether more may be gathered behind it.
    fn gather_unit(
        &mut self,
        side: Side,
        http: &mut Http,
        place: &mut Portion,
        unit: Unit,
    ) -> M<bool>
        requires { LooksAt side place.old.reader self.old unit }
        ensures ok { IfOk result (λ goes. UnitGathered goes side unit
            (gathered place.old http.old self.old) (gathered place.new http.new self.new)) }
        ensures edges { self.new.edges ≡ self.old.edges }
    {
        match unit {
            Unit::Piece(size) => {
                let n = size.min(place.wanted);
                if n == 0 {
                    return Err(Memory);
                }
                self.gather_piece(side, http, place, n)
            }
            Unit::ChunkLine { line, size } => {
                self.read(side, line);
                place.reader = BodyState::Chunk(size);
                Ok(true)
            }
            _ => Ok(false),
        }
    }

    // Gathers so many bytes of a piece.
    fn gather_piece(
        &mut self,
        side: Side,
        http: &mut Http,
        place: &mut Portion,
        n: usize,
    ) -> M<bool>
        requires there { passes_now side n self.old }
        requires wanted { n ≤ place.old.wanted }
        ensures ok { IfOk result (λ goes. (goes ≡ goes_on place.new)
            × TakesPiece side n place.old http.old self.old place.new http.new self.new) }
        ensures edges { self.new.edges ≡ self.old.edges }
    {
        place.reader = go_on(place.reader, Unit::Piece(n));
        place.wanted -= n;
        hold(http, &self.end_of(side).unread.front()[..n], place.reader)?;
        self.read(side, n);
        Ok(place.wanted > 0 && !http.whole)
    }
}

// These bytes are gathered, behind which the reader stands there.
fn hold(http: &mut Http, bytes: &[u8], reader: BodyState) -> M<()>
    ensures { OnOk result (http.new ≡ with_gathered bytes.now reader http.old) }
{
    let Some(gathered) = http.gathered.unwrap_or(0).checked_add(bytes.len()) else {
        return Err(Memory);
    };
    http.payload.push(bytes)?;
    http.gathered = Some(gathered);
    http.whole = matches!(reader, BodyState::Left(0));
    http.reader = reader;
    Ok(())
}

// The body was read whole.
fn hold_whole(http: &mut Http)
    ensures { http.new ≡ with_whole http.old }
{
    http.reader = BodyState::Left(0);
    http.whole = true;
    http.gathered = Some(http.gathered.unwrap_or(0));
}

impl Conn {
    /// Gathers what came of a body for a rule. Where as much is there as it wants, or the body's end, the event
    /// comes.
    pub(crate) fn gather(
        &mut self,
        setup: &Setup<'_>,
        number: u32,
        side: Side,
        from: Portion,
        notes: &mut Notes,
    ) -> M<Act>
        requires { 1 ≤ notes.old.spare }
        ensures ok { IfOk result (λ act. (is_some self.old.host.http ≡ true)
            × GathersBody side from.wanted from.reader setup.now number self.old self.new
            notes.old.items notes.new.items act) }
        ensures err { OnErr result (notes.new ≡ notes.old) }
        ensures kept { OnErr result (self.new.ends.edges ≡ self.old.ends.edges) }
        ensures spare { notes.old.spare ≤ notes.new.spare + 1 }
        ensures grows { length notes.old.items ≤ length notes.new.items }
        ensures room { notes.new.spare + length notes.new.items
            ≡ notes.old.spare + length notes.old.items }
    {
        let Some(http) = &mut self.host.http else {
            return Err(Memory);
        };
        let (place, unit) = self.ends.gather_units(side, http, from)?;
        self.stage = Stage::Gathering {
            side,
            wanted: place.wanted,
            reader: place.reader,
        };
        match unit {
            Unit::Piece(_) => {
                self.enter(setup, At::gathered(side));
                Ok(Act::Goes)
            }
            Unit::Finished(size) => {
                hold_whole(http);
                self.ends.read(side, size);
                self.enter(setup, At::gathered(side));
                Ok(Act::Goes)
            }
            Unit::Fault(fault) => self.refuse_of(setup, number, side, fault, notes),
            Unit::NotYet => Ok(self.wait_or_cut(setup, number, side, notes)),
            Unit::ChunkLine { .. } => Err(Memory),
        }
    }
}
