// The lines by which something is expected.

ghost use Rattle.std.specs.Prelude.{◌≡◌, ◌≤◌};
ghost use Rattle.test_text.specs.Expectations.{count_at, expected, gets, logger_at, logs};
ghost use Rattle.test_text.specs.Expectations.{of_client, of_none};
ghost use Rattle.test_text.specs.Expectations.{of_server, row, row_value, server_wished, some_get};
ghost use Rattle.test_text.specs.Expectations.{some_wished, wished_at};
ghost use Rattle.test_text.specs.Faults.{Gives};
ghost use Rattle.test_text.specs.Line.{line_view};

use crate::deeds::MOST;
use crate::expectation::{Expectation, Wished, WishedRow};
use crate::fault::{Stopped, TestFault};
use crate::line::Line;
use px_bytes::{Addr, Side, Text, Texts};
use std::alloc::Global;

// `like PATTERN`, or a text
fn some_wished(alloc: Global, line: Line<'_>, at: usize) -> Result<Wished, Stopped>
    requires { at ≤ 8 }
    ensures { Gives result (some_wished (line_view line.entry) at) }
{
    if line.has(at, b"like") {
        let pattern = line.text(alloc, at + 1)?;
        line.ends(at + 2)?;
        return Ok(Wished::Like(pattern));
    }
    let text = line.text(alloc, at)?;
    line.ends(at + 1)?;
    Ok(Wished::Exactly(text))
}

// `nothing`, `like PATTERN`, or a text
fn wished(alloc: Global, line: Line<'_>, at: usize) -> Result<Wished, Stopped>
    requires { at ≤ 8 }
    ensures { Gives result (wished_at (line_view line.entry) at) }
{
    if line.has(at, b"nothing") {
        line.ends(at + 1)?;
        return Ok(Wished::Nothing);
    }
    some_wished(alloc, line, at)
}

// `gets ..`, of a client or a server
fn gets(alloc: Global, side: Side, client: usize, line: Line<'_>) -> Result<Expectation, Stopped>
    ensures { Gives result (gets side client (line_view line.entry)) }
{
    let what = wished(alloc, line, 4)?;
    Ok(Expectation::Gets { side, client, what })
}

// `client C gets ..`, `client C over CAUSE`, `client C open`
fn of_client(alloc: Global, client: usize, line: Line<'_>) -> Result<Expectation, Stopped>
    ensures { Gives result (of_client client (line_view line.entry)) }
{
    if line.has(3, b"gets") {
        return gets(alloc, Side::Client, client, line);
    }
    if line.has(3, b"over") {
        let cause = line.cause(4)?;
        return Ok(Expectation::Over { client, cause });
    }
    line.key(3, b"open")?;
    line.ends(4)?;
    Ok(Expectation::Open { client })
}

// `none`, or an address
fn server_wished(line: Line<'_>, at: usize) -> Result<Option<Addr>, TestFault>
    ensures { result ≡ server_wished (line_view line.entry) at }
{
    if line.has(at, b"none") {
        return Ok(None);
    }
    Ok(Some(line.address(at)?))
}

// `server C gets ..`, `server C is ADDR:PORT`, `server C is none`
fn of_server(alloc: Global, client: usize, line: Line<'_>) -> Result<Expectation, Stopped>
    ensures { Gives result (of_server client (line_view line.entry)) }
{
    if line.has(3, b"gets") {
        return gets(alloc, Side::Server, client, line);
    }
    line.key(3, b"is")?;
    let addr = server_wished(line, 4)?;
    line.ends(5)?;
    Ok(Expectation::Server { client, addr })
}

// `init`, or a client
fn logger(line: Line<'_>, clients: &Texts, at: usize) -> Result<Option<usize>, TestFault>
    ensures { result ≡ logger_at clients.now (line_view line.entry) at }
{
    if line.has(at, b"init") {
        return Ok(None);
    }
    Ok(Some(line.client(clients, at)?))
}

// `log C ..`
fn logs(alloc: Global, line: Line<'_>, clients: &Texts) -> Result<Expectation, Stopped>
    ensures { Gives result (logs clients.now (line_view line.entry)) }
{
    let of = logger(line, clients, 2)?;
    let what = wished(alloc, line, 3)?;
    Ok(Expectation::Log { of, what })
}

// `none`, or a value
fn row_value(alloc: Global, line: Line<'_>, at: usize) -> Result<Option<Text>, Stopped>
    ensures { Gives result (row_value (line_view line.entry) at) }
{
    if line.has(at, b"none") {
        return Ok(None);
    }
    Ok(Some(line.text(alloc, at)?))
}

// `row SUBTABLE KEY VALUE`, `row SUBTABLE KEY none`
fn row(alloc: Global, line: Line<'_>) -> Result<WishedRow, Stopped>
    ensures { Gives result (row (line_view line.entry)) }
{
    let subtable = line.text(alloc, 2)?;
    let key = line.text(alloc, 3)?;
    let value = row_value(alloc, line, 4)?;
    line.ends(5)?;
    Ok(WishedRow {
        subtable,
        key,
        value,
    })
}

// A number, where a word of the language may stand too.
fn count(line: Line<'_>, at: usize) -> Result<u64, TestFault>
    ensures { result ≡ count_at (line_view line.entry) at }
{
    match line.number(MOST, at) {
        Ok(count) => Ok(count),
        Err(_) => Err(line.odd(at)),
    }
}

// `N of {C ..} get ..`
fn some_get(
    alloc: Global,
    text: &[u8],
    line: Line<'_>,
    clients: &Texts,
) -> Result<Expectation, Stopped>
    ensures { Gives result (some_get text.now clients.now (line_view line.entry)) }
{
    let count = count(line, 1)?;
    line.key(2, b"of")?;
    let clients = line.clients(alloc, text, clients, 3)?;
    line.key(4, b"get")?;
    let what = some_wished(alloc, line, 5)?;
    Ok(Expectation::SomeGet {
        count,
        clients,
        what,
    })
}

fn of_none(
    alloc: Global,
    text: &[u8],
    line: Line<'_>,
    clients: &Texts,
) -> Result<Expectation, Stopped>
    ensures { Gives result (of_none text.now clients.now (line_view line.entry)) }
{
    if line.has(1, b"log") {
        return logs(alloc, line, clients);
    }
    if line.has(1, b"row") {
        return Ok(Expectation::Row(row(alloc, line)?));
    }
    some_get(alloc, text, line, clients)
}

/// What is expected by a line, in a text, behind these clients.
pub(crate) fn expected(
    alloc: Global,
    text: &[u8],
    line: Line<'_>,
    clients: &Texts,
) -> Result<Expectation, Stopped>
    ensures { Gives result (expected text.now clients.now (line_view line.entry)) }
{
    if line.has(1, b"client") {
        let client = line.client(clients, 2)?;
        return of_client(alloc, client, line);
    }
    if line.has(1, b"server") {
        let client = line.client(clients, 2)?;
        return of_server(alloc, client, line);
    }
    of_none(alloc, text, line, clients)
}
