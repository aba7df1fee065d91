// The lines by which something is done.

ghost use Rattle.std.specs.Prelude.{◌≡◌};
ghost use Rattle.px_bytes.specs.declared.addr.Side.TheVariants.{Client, Server};
ghost use Rattle.test_text.specs.Deeds.{GivesBehind, amount_at, comes, does, done, health_at};
ghost use Rattle.test_text.specs.Deeds.{last_deed};
ghost use Rattle.test_text.specs.Deeds.{marks, meeting_at, meets, of_no_client, peer_deed};
ghost use Rattle.test_text.specs.Deeds.{still_deed, waits};
ghost use Rattle.test_text.specs.Faults.{Gives};
ghost use Rattle.test_text.specs.Line.{line_view};

use crate::deed::{Deed, Meeting, PeerDeed};
use crate::fault::{Stopped, TestFault};
use crate::line::Line;
use px_bytes::{Side, Texts};
use std::alloc::Global;

/// The greatest number of a test.
pub(crate) const MOST: u64 = 9_007_199_254_740_992;

// `client C from ADDR to VIRTUAL`
fn comes(alloc: Global, line: Line<'_>, clients: &mut Texts) -> Result<Deed, Stopped>
    ensures { GivesBehind result clients.new (comes clients.old (line_view line.entry)) }
{
    let name = line.new_client(alloc, clients, 1)?;
    let from = line.source(3)?;
    line.key(4, b"to")?;
    let to = line.name(alloc, 5)?;
    line.ends(6)?;
    let client = clients.len();
    clients.push(name)?;
    Ok(Deed::Comes { client, from, to })
}

// `takes N`, `takes nothing`, `takes all`
fn amount(line: Line<'_>, at: usize) -> Result<Option<u64>, TestFault>
    ensures { result ≡ amount_at (line_view line.entry) at }
{
    if line.has(at, b"all") {
        return Ok(None);
    }
    if line.has(at, b"nothing") {
        return Ok(Some(0));
    }
    Ok(Some(line.number(MOST, at)?))
}

// `sends TEXT`, `ends`, `resets`, `takes N`
fn peer_deed(alloc: Global, line: Line<'_>) -> Result<PeerDeed, Stopped>
    ensures { Gives result (peer_deed (line_view line.entry)) }
{
    if line.has(2, b"sends") {
        let text = line.text(alloc, 3)?;
        line.ends(4)?;
        return Ok(PeerDeed::Sends(text));
    }
    Ok(still_deed(line)?)
}

// `takes N`, `ends`, `resets`
fn still_deed(line: Line<'_>) -> Result<PeerDeed, TestFault>
    ensures { result ≡ still_deed (line_view line.entry) }
{
    if line.has(2, b"takes") {
        let amount = amount(line, 3)?;
        line.ends(4)?;
        return Ok(PeerDeed::Takes(amount));
    }
    let deed = last_deed(line)?;
    line.ends(3)?;
    Ok(deed)
}

// `ends`, `resets`
fn last_deed(line: Line<'_>) -> Result<PeerDeed, TestFault>
    ensures { result ≡ last_deed (line_view line.entry) }
{
    if line.has(2, b"ends") {
        return Ok(PeerDeed::Ends);
    }
    if line.has(2, b"resets") {
        return Ok(PeerDeed::Resets);
    }
    Err(line.odd(2))
}

fn does(alloc: Global, side: Side, line: Line<'_>, clients: &Texts) -> Result<Deed, Stopped>
    ensures { Gives result (does side clients.now (line_view line.entry)) }
{
    let client = line.client(clients, 1)?;
    let deed = peer_deed(alloc, line)?;
    Ok(Deed::Does { side, client, deed })
}

// `connects`, `refuses`, `waits`
fn meeting(line: Line<'_>, at: usize) -> Result<Meeting, TestFault>
    ensures { result ≡ meeting_at (line_view line.entry) at }
{
    if line.has(at, b"connects") {
        return Ok(Meeting::Connects);
    }
    if line.has(at, b"refuses") {
        return Ok(Meeting::Refuses);
    }
    if line.has(at, b"waits") {
        return Ok(Meeting::Waits);
    }
    Err(line.odd(at))
}

// `member ADDR:PORT connects`
fn meets(line: Line<'_>) -> Result<Deed, TestFault>
    ensures { result ≡ meets (line_view line.entry) }
{
    let server = line.server(1)?;
    let meeting = meeting(line, 2)?;
    line.ends(3)?;
    Ok(Deed::Meets { server, meeting })
}

fn health(line: Line<'_>, at: usize) -> Result<bool, TestFault>
    ensures { result ≡ health_at (line_view line.entry) at }
{
    if line.has(at, b"up") {
        return Ok(true);
    }
    if line.has(at, b"down") {
        return Ok(false);
    }
    Err(line.odd(at))
}

// `mark POOL ADDR:PORT up`
fn marks(alloc: Global, line: Line<'_>) -> Result<Deed, Stopped>
    ensures { Gives result (marks (line_view line.entry)) }
{
    let pool = line.name(alloc, 1)?;
    let member = line.server(2)?;
    let up = health(line, 3)?;
    line.ends(4)?;
    Ok(Deed::Marks { pool, member, up })
}

// `wait MILLISECONDS`
fn waits(line: Line<'_>) -> Result<Deed, TestFault>
    ensures { result ≡ waits (line_view line.entry) }
{
    let time = line.number(MOST, 1)?;
    line.ends(2)?;
    Ok(Deed::Waits(time))
}

fn of_no_client(alloc: Global, line: Line<'_>) -> Result<Deed, Stopped>
    ensures { Gives result (of_no_client (line_view line.entry)) }
{
    if line.has(0, b"member") {
        return Ok(meets(line)?);
    }
    if line.has(0, b"mark") {
        return marks(alloc, line);
    }
    if line.has(0, b"wait") {
        return Ok(waits(line)?);
    }
    Err(Stopped::Fault(line.odd(0)))
}

/// What is done by a line, behind these clients.
pub(crate) fn done(alloc: Global, line: Line<'_>, clients: &mut Texts) -> Result<Deed, Stopped>
    ensures { GivesBehind result clients.new (done clients.old (line_view line.entry)) }
{
    if line.has(0, b"client") {
        if line.has(2, b"from") {
            return comes(alloc, line, clients);
        }
        return does(alloc, Side::Client, line, clients);
    }
    if line.has(0, b"server") {
        return does(alloc, Side::Server, line, clients);
    }
    of_no_client(alloc, line)
}
