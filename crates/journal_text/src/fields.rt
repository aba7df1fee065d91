// What the words behind the first one stand for. No word is empty.

ghost use Rattle.std.specs.Prelude.{◌≡◌, ℕ, ◌≤◌, Bool, [], ◌∷◌, map};
ghost use Rattle.std.specs.Prelude.{IfOk, IfSome, IfNone};
ghost use Rattle.std.specs.Fmt.{decimal};
ghost use Rattle.journal_text.specs.Form.{Hex, Numbered, Bytes, conn_form, count_form, health_text};
ghost use Rattle.journal_text.specs.Form.{forms, fields, verb_of};
ghost use Rattle.journal_text.specs.Reading.{Answered};

use crate::{EventVerb, LineKind};
use core_events::Event;
use px_bytes::{Addr, Text, read_addr, read_decimal, read_hex, read_ip};
use std::alloc::Global;

// The most bytes that a line may tell of, and its last moment.
const MOST_COUNTED: u64 = 1 << 53;

/// The event that the words behind the verb tell.
pub fn verb_event(alloc: Global, verb: EventVerb, rest: &[&[u8]]) -> Result<Event, LineKind>
    ensures verb_is { IfOk result (λ event. verb_of event ≡ verb) }
    ensures answered { Answered fields (forms verb) (map (λ w. w.now) rest.now) result }
{
    match verb {
        EventVerb::Accept => accept_event(alloc, rest),
        EventVerb::Mark => mark_event(alloc, rest),
        EventVerb::Client | EventVerb::Server => bytes_event(alloc, verb, rest),
        EventVerb::ClientTook | EventVerb::ServerTook => took_event(verb, rest),
        EventVerb::Tick => tick_event(rest),
        EventVerb::Turn | EventVerb::Run => plain_event(verb, rest),
        _ => connection_event(verb, rest),
    }
}

fn plain_event(verb: EventVerb, rest: &[&[u8]]) -> Result<Event, LineKind>
    requires { forms verb ≡ [] }
    ensures verb_is { IfOk result (λ event. verb_of event ≡ verb) }
    ensures answered { Answered fields (forms verb) (map (λ w. w.now) rest.now) result }
{
    if !rest.is_empty() {
        return Err(LineKind::NotEvent);
    }
    match verb {
        EventVerb::Turn => Ok(Event::Turn),
        _ => Ok(Event::Run),
    }
}

fn connection_event(verb: EventVerb, rest: &[&[u8]]) -> Result<Event, LineKind>
    requires { forms verb ≡ conn_form ∷ [] }
    ensures verb_is { IfOk result (λ event. verb_of event ≡ verb) }
    ensures answered { Answered fields (forms verb) (map (λ w. w.now) rest.now) result }
{
    let [conn] = rest else {
        return Err(LineKind::NotEvent);
    };
    let conn = conn_of(conn).ok_or(LineKind::BadNumber)?;
    Ok(match verb {
        EventVerb::ClientEnd => Event::ClientEnd { conn },
        EventVerb::ClientReset => Event::ClientReset { conn },
        EventVerb::Connected => Event::Connected { conn },
        EventVerb::Refused => Event::Refused { conn },
        EventVerb::ServerEnd => Event::ServerEnd { conn },
        _ => Event::ServerReset { conn },
    })
}

fn tick_event(rest: &[&[u8]]) -> Result<Event, LineKind>
    ensures verb_is { IfOk result (λ event. verb_of event ≡ EventVerb.Tick) }
    ensures answered { Answered fields (forms EventVerb.Tick) (map (λ w. w.now) rest.now) result }
{
    let [moment] = rest else {
        return Err(LineKind::NotEvent);
    };
    let moment = count_of(moment).ok_or(LineKind::BadNumber)?;
    Ok(Event::Tick { moment })
}

fn took_event(verb: EventVerb, rest: &[&[u8]]) -> Result<Event, LineKind>
    requires { forms verb ≡ conn_form ∷ count_form ∷ [] }
    ensures verb_is { IfOk result (λ event. verb_of event ≡ verb) }
    ensures answered { Answered fields (forms verb) (map (λ w. w.now) rest.now) result }
{
    let [conn, n] = rest else {
        return Err(LineKind::NotEvent);
    };
    let conn = conn_of(conn).ok_or(LineKind::BadNumber)?;
    let n = count_of(n).ok_or(LineKind::BadNumber)? as usize;
    Ok(match verb {
        EventVerb::ClientTook => Event::ClientTook { conn, n },
        _ => Event::ServerTook { conn, n },
    })
}

fn bytes_event(alloc: Global, verb: EventVerb, rest: &[&[u8]]) -> Result<Event, LineKind>
    requires { forms verb ≡ conn_form ∷ Hex ∷ [] }
    ensures verb_is { IfOk result (λ event. verb_of event ≡ verb) }
    ensures answered { Answered fields (forms verb) (map (λ w. w.now) rest.now) result }
{
    let [conn, bytes] = rest else {
        return Err(LineKind::NotEvent);
    };
    let (conn, bytes) = bytes_words(alloc, conn, bytes)?;
    Ok(match verb {
        EventVerb::Client => Event::FromClient { conn, bytes },
        _ => Event::FromServer { conn, bytes },
    })
}

#[tactic(auto, using(crate::proofs::Failing::bad_hex))]
fn bytes_words(alloc: Global, conn: &[u8], bytes: &[u8]) -> Result<(u32, Text), LineKind>
    ensures { Answered (λ read. Numbered read.0 ∷ Bytes read.1 ∷ []) (conn_form ∷ Hex ∷ [])
        (conn.now ∷ bytes.now ∷ []) result }
{
    let Some(conn) = conn_of(conn) else {
        return Err(LineKind::BadNumber);
    };
    match read_hex(alloc, bytes)? {
        Some(bytes) => Ok((conn, bytes)),
        None => Err(LineKind::BadHex),
    }
}

fn accept_event(alloc: Global, rest: &[&[u8]]) -> Result<Event, LineKind>
    ensures verb_is { IfOk result (λ event. verb_of event ≡ EventVerb.Accept) }
    ensures answered { Answered fields (forms EventVerb.Accept) (map (λ w. w.now) rest.now) result }
{
    match rest {
        [conn, vs, ip, port] => accept_words(alloc, conn, vs, ip, port),
        _ => Err(LineKind::NotEvent),
    }
}

#[tactic(auto, using(crate::proofs::Failing::bad_conn, crate::proofs::Failing::bad_port))]
fn accept_words(
    alloc: Global,
    conn: &[u8],
    vs: &[u8],
    ip: &[u8],
    port: &[u8],
) -> Result<Event, LineKind>
    ensures verb_is { IfOk result (λ event. verb_of event ≡ EventVerb.Accept) }
    ensures answered { Answered fields (forms EventVerb.Accept)
        (conn.now ∷ vs.now ∷ ip.now ∷ port.now ∷ []) result }
{
    let Some(ip) = read_ip(ip) else {
        return Err(LineKind::NotEvent);
    };
    let Some(conn) = conn_of(conn) else {
        return Err(LineKind::BadNumber);
    };
    let Some(port) = port_of(port) else {
        return Err(LineKind::BadNumber);
    };
    let vs = Text::new(alloc, vs)?;
    let from = Addr { ip, port };
    Ok(Event::Accept { conn, vs, from })
}

fn mark_event(alloc: Global, rest: &[&[u8]]) -> Result<Event, LineKind>
    ensures verb_is { IfOk result (λ event. verb_of event ≡ EventVerb.Mark) }
    ensures answered { Answered fields (forms EventVerb.Mark) (map (λ w. w.now) rest.now) result }
{
    match rest {
        [pool, member, health] => mark_words(alloc, pool, member, health),
        _ => Err(LineKind::NotEvent),
    }
}

fn mark_words(alloc: Global, pool: &[u8], member: &[u8], health: &[u8]) -> Result<Event, LineKind>
    ensures verb_is { IfOk result (λ event. verb_of event ≡ EventVerb.Mark) }
    ensures answered { Answered fields (forms EventVerb.Mark)
        (pool.now ∷ member.now ∷ health.now ∷ []) result }
{
    let member = read_addr(member).ok_or(LineKind::NotEvent)?;
    let up = health_of(health).ok_or(LineKind::NotEvent)?;
    let pool = Text::new(alloc, pool)?;
    Ok(Event::Mark { pool, member, up })
}

fn health_of(word: &[u8]) -> Option<bool>
    ensures found { IfSome result (λ up. word.now ≡ health_text up) }
    ensures none { IfNone result ((up : Bool) → ¬ (word.now ≡ health_text up)) }
{
    if word == b"up".as_slice() {
        return Some(true);
    }
    if word == b"down".as_slice() {
        return Some(false);
    }
    None
}

fn conn_of(word: &[u8]) -> Option<u32>
    ensures found { IfSome result (λ n. (word.now ≡ decimal n) × (n ≤ 4294967295)) }
    ensures none { IfNone result ((n : ℕ) → n ≤ 4294967295 → ¬ (word.now ≡ decimal n)) }
{
    Some(read_decimal(word, u64::from(u32::MAX))? as u32)
}

fn port_of(word: &[u8]) -> Option<u16>
    ensures found { IfSome result (λ n. (word.now ≡ decimal n) × (n ≤ 65535)) }
    ensures none { IfNone result ((n : ℕ) → n ≤ 65535 → ¬ (word.now ≡ decimal n)) }
{
    Some(read_decimal(word, u64::from(u16::MAX))? as u16)
}

fn count_of(word: &[u8]) -> Option<u64>
    ensures found { IfSome result (λ n. (word.now ≡ decimal n) × (n ≤ 9007199254740992)) }
    ensures none { IfNone result ((n : ℕ) → n ≤ 9007199254740992 → ¬ (word.now ≡ decimal n)) }
{
    read_decimal(word, MOST_COUNTED)
}
